// A text, written line by line.
ghost use Rattle.std.specs.Prelude.{◌≡◌, ℕ, ◌++◌, ◌∷◌, [], ◌≤◌, ◌<◌, ◌+◌, length, drop, OnOk, IfOk, map, decimal};
ghost use Rattle.std.specs.Fmt.{signed_decimal};
ghost use Rattle.bm_base.specs.Numeral.{hexadecimal};
ghost use Rattle.bm_base.specs.Machine.{IsMachine};
ghost use Rattle.bm_base.specs.Names.{AreNames};
ghost use Rattle.stream_file.specs.Rows as spec;
ghost use Rattle.stream_file.specs.Fields as fields;
ghost use Rattle.stream_file.specs.Shown.{row};
ghost use Rattle.stream_file.specs.Words.{classes};
ghost use Rattle.unit_law.specs.State.{code_at};
ghost use Rattle.stream_file.specs.Written.{version_of, head_lines, time_lines, given_by, streams_from, stream_rows, fields_at};
ghost use Rattle.stream_file.specs.Written.{blocks_from, fields_of};
ghost use Rattle.stream_file.specs.Texts.{text_of_rows, spaced};
ghost use Rattle.stream_file.specs.RowFits.{InRange, IsTypedRow, AreTypedTuples, AreTypedNames};
ghost use Rattle.stream_file.specs.Images.{IsTextOfImage};
ghost use Rattle.stream_image.specs.Image.{IsImage};

use crate::line::Line;
use crate::words::{binary_word, class_word, unary_word};
use bm_base::{Class, Kind, Mask, Names, Piece, Spec};
use itoa::Buffer;
use line_model::StreamItem;
use std::alloc::{AllocError, Global};
use stream_image::Image;
use tuple_ir::{Next, Tuple};

fn text(out: &mut Vec<u8>, bytes: &[u8]) -> Result<(), AllocError>
    ensures { OnOk result (out.new.items ≡ out.old.items ++ bytes.now) }
{
    out.extend_from_slice(bytes)?;
    Ok(())
}

fn count(out: &mut Vec<u8>, value: u64) -> Result<(), AllocError>
    ensures { OnOk result (out.new.items ≡ out.old.items ++ decimal value) }
{
    let mut digits = Buffer::new();
    text(out, digits.format(value).as_bytes())
}

/// A space and a number.
fn field(out: &mut Vec<u8>, value: u64) -> Result<(), AllocError>
    ensures { OnOk result (out.new.items ≡ out.old.items ++ 32 ∷ decimal value) }
{
    text(out, b" ")?;
    count(out, value)
}

/// A space and a number.
fn signed(out: &mut Vec<u8>, value: i64) -> Result<(), AllocError>
    ensures { OnOk result (out.new.items ≡ out.old.items ++ 32 ∷ signed_decimal value) }
{
    text(out, b" ")?;
    let mut digits = Buffer::new();
    text(out, digits.format(value).as_bytes())
}

fn mask(out: &mut Vec<u8>, mask: Mask) -> Result<(), AllocError>
    ensures { OnOk result (out.new.items ≡ out.old.items ++ hexadecimal mask) }
{
    let mut digits = Piece::new();
    digits.mask(mask);
    text(out, digits.bytes())
}

/// A word and a number behind it.
fn worded(out: &mut Vec<u8>, word: &[u8], value: u64) -> Result<(), AllocError>
    ensures { OnOk result (out.new.items ≡ out.old.items ++ (word.now ++ 32 ∷ decimal value)) }
{
    text(out, word)?;
    field(out, value)
}

/// A word and two numbers behind it.
fn worded_two(out: &mut Vec<u8>, word: &[u8], first: u64, second: u64) -> Result<(), AllocError>
    ensures { OnOk result (out.new.items ≡ out.old.items ++ (word.now ++ 32 ∷ (decimal first ++ 32 ∷ decimal second))) }
{
    worded(out, word, first)?;
    field(out, second)
}

fn tuple(out: &mut Vec<u8>, tuple: Tuple) -> Result<(), AllocError>
    ensures text { OnOk result (out.new.items ≡ out.old.items ++ spec.tuple_text tuple) }
    ensures typed { fields.TupleFits tuple }
{
    match tuple {
        Tuple::Const { value } => {
            text(out, b"const")?;
            signed(out, value)
        }
        Tuple::Load { name } => worded(out, b"load", u64::from(name)),
        Tuple::Store { name, value } => {
            worded_two(out, b"store", u64::from(name), u64::from(value))
        }
        Tuple::LoadEl { name, index } => {
            worded_two(out, b"loadel", u64::from(name), u64::from(index))
        }
        Tuple::StoreEl { name, index, value } => {
            worded_two(out, b"storeel", u64::from(name), u64::from(index))?;
            field(out, u64::from(value))
        }
        Tuple::One { op, a } => worded(out, unary_word(op), u64::from(a)),
        Tuple::Two { op, a, b } => worded_two(out, binary_word(op), u64::from(a), u64::from(b)),
        Tuple::Print { value } => worded(out, b"print", u64::from(value)),
    }
}

fn next(out: &mut Vec<u8>, next: Next) -> Result<(), AllocError>
    ensures { OnOk result (out.new.items ≡ out.old.items ++ spec.next_text next) }
{
    match next {
        Next::Halt => text(out, b"halt"),
        Next::Goto { block } => {
            text(out, b"goto")?;
            field(out, u64::from(block))
        }
        Next::If { cell, yes, no } => {
            text(out, b"if")?;
            field(out, u64::from(cell))?;
            field(out, u64::from(yes))?;
            field(out, u64::from(no))
        }
    }
}

fn entry(out: &mut Vec<u8>, name: &[u8], kind: Kind) -> Result<(), AllocError>
    ensures text { OnOk result (out.new.items ≡ out.old.items ++ spec.entry_text name.now kind) }
    ensures typed { InRange kind }
{
    match kind {
        Kind::Var { initial } => {
            text(out, b"var ")?;
            text(out, name)?;
            signed(out, initial)
        }
        Kind::Array { len } => {
            text(out, b"array ")?;
            text(out, name)?;
            field(out, u64::from(len))
        }
    }
}

/// The text of a line, without its LF.
fn line(out: &mut Vec<u8>, line: Line) -> Result<(), AllocError>
    ensures text { OnOk result (out.new.items ≡ out.old.items ++ spec.row_text (row line.entry)) }
    ensures typed { IsTypedRow (row line.entry) }
{
    match line {
        Line::Version { version } => worded(out, b"bmimd", u64::from(version)),
        Line::Processors { count } => worded(out, b"processors", u64::from(count)),
        Line::Barrier { delay } => worded(out, b"barrier", u64::from(delay)),
        Line::Times { class, time } => {
            text(out, b"time ")?;
            worded_two(
                out,
                class_word(class),
                u64::from(time.least),
                u64::from(time.most),
            )
        }
        Line::Named { name, kind } => entry(out, name, kind),
        Line::Opens { number } => worded(out, b"block", u64::from(number)),
        Line::Does { tuple: t } => {
            text(out, b"t ")?;
            tuple(out, t)
        }
        Line::Masks { mask: m } => {
            text(out, b"m ")?;
            mask(out, Mask::of_number(m))
        }
        Line::Streams { processor, items } => {
            worded(out, b"p", u64::from(processor))?;
            text(out, b" ")?;
            text(out, items)
        }
        Line::Follows { next: n } => next(out, n),
        Line::Ends => text(out, b"end"),
    }
}

/// A line with its LF.
pub fn write_line(out: &mut Vec<u8>, row_of: Line) -> Result<(), AllocError>
    ensures text { OnOk result (out.new.items ≡ out.old.items ++ text_of_rows (row row_of.entry ∷ [])) }
    ensures typed { IsTypedRow (row row_of.entry) }
{
    line(out, row_of)?;
    text(out, b"\n")
}

fn item(out: &mut Vec<u8>, item: StreamItem) -> Result<(), AllocError>
    ensures { OnOk result (out.new.items ≡ out.old.items ++ spec.item_text item) }
{
    match item {
        StreamItem::Do { tuple } => count(out, u64::from(tuple)),
        StreamItem::Wait => text(out, b"w"),
    }
}

/// Each item behind a space.
fn items(out: &mut Vec<u8>, items: &[StreamItem]) -> Result<(), AllocError>
    ensures { OnOk result (out.new.items ≡ out.old.items ++ spaced items.now) }
{
    for one in items {
        text(out, b" ")?;
        item(out, *one)?;
    }
    Ok(())
}

/// A space, and the items with a space between two.
fn some_items(out: &mut Vec<u8>, list: &[StreamItem]) -> Result<(), AllocError>
    requires { 1 ≤ length list.now }
    ensures { OnOk result (out.new.items ≡ out.old.items ++ 32 ∷ fields.items_text list.now) }
{
    items(out, list)
}

/// A processor's stream, with its LF.
pub fn write_stream(out: &mut Vec<u8>, processor: u8, list: &[StreamItem]) -> Result<(), AllocError>
    requires { 1 ≤ length list.now }
    ensures { OnOk result (out.new.items ≡ out.old.items ++ text_of_rows (spec.Streams processor (fields.items_text list.now) ∷ [])) }
{
    text(out, b"p")?;
    field(out, u64::from(processor))?;
    some_items(out, list)?;
    text(out, b"\n")
}

fn write_tuples(out: &mut Vec<u8>, tuples: &[Tuple]) -> Result<(), AllocError>
    ensures text { OnOk result (out.new.items ≡ out.old.items ++ text_of_rows (map (λ t. spec.Does t) tuples.now)) }
    ensures typed { OnOk result (AreTypedTuples tuples.now) }
{
    for one in tuples {
        write_line(out, Line::Does { tuple: *one })?;
    }
    Ok(())
}

/// A mask's line, with its LF.
fn write_mask(out: &mut Vec<u8>, one: Mask) -> Result<(), AllocError>
    ensures { OnOk result (out.new.items ≡ out.old.items ++ text_of_rows (spec.Masks one ∷ [])) }
{
    text(out, b"m ")?;
    mask(out, one)?;
    text(out, b"\n")
}

fn write_masks(out: &mut Vec<u8>, masks: &[Mask]) -> Result<(), AllocError>
    ensures { OnOk result (out.new.items ≡ out.old.items ++ text_of_rows (map (λ m. spec.Masks m) masks.now)) }
{
    for one in masks {
        write_mask(out, *one)?;
    }
    Ok(())
}

/// A processor's stream with its LF, where it has an item.
fn write_given(out: &mut Vec<u8>, p: u8, list: &[StreamItem]) -> Result<(), AllocError>
    ensures { OnOk result (out.new.items ≡ out.old.items ++ text_of_rows (stream_rows (given_by p list.now []))) }
{
    if list.is_empty() {
        Ok(())
    } else {
        write_stream(out, p, list)
    }
}

/// The streams of a block, with their LFs.
fn write_streams(out: &mut Vec<u8>, image: &Image, b: u32) -> Result<(), AllocError>
    requires { b < length image.now.blocks }
    ensures { OnOk result (out.new.items
        ≡ out.old.items ++ text_of_rows (stream_rows (streams_from 0 image.now.machine.processors (code_at image.now b).line))) }
{
    for p in 0..image.spec().processors() {
        write_given(out, p, image.stream(b, p))?;
    }
    Ok(())
}

/// The class of a number.
fn class_at(number: usize) -> Class
    requires { number < 9 }
    ensures { drop number classes ≡ result ∷ drop (number + 1) classes }
{
    match number {
        0 => Class::Const,
        1 => Class::Load,
        2 => Class::Store,
        3 => Class::LoadEl,
        4 => Class::StoreEl,
        5 => Class::Alu,
        6 => Class::Mul,
        7 => Class::Div,
        _ => Class::Print,
    }
}

fn write_times(out: &mut Vec<u8>, spec: &Spec) -> Result<(), AllocError>
    ensures { OnOk result (out.new.items ≡ out.old.items ++ text_of_rows (time_lines spec.now classes)) }
{
    for number in 0..9 {
        let class = class_at(number);
        let time = spec.time(class);
        write_line(out, Line::Times { class, time })?;
    }
    Ok(())
}

fn write_names(out: &mut Vec<u8>, names: &Names) -> Result<(), AllocError>
    ensures text { OnOk result (out.new.items ≡ out.old.items ++ text_of_rows (map (λ e. spec.Named e) names.now)) }
    ensures lawful { OnOk result (AreNames names.now) }
    ensures typed { OnOk result (AreTypedNames names.now) }
{
    for id in 0..names.len() {
        let name = names.name(id as u16);
        let kind = names.kind(id as u16);
        write_line(out, Line::Named { name, kind })?;
    }
    Ok(())
}

/// The lines of a block.
fn write_block(out: &mut Vec<u8>, image: &Image, b: u32) -> Result<(), AllocError>
    requires { b < length image.now.blocks }
    ensures text { OnOk result (out.new.items ≡ out.old.items ++ text_of_rows (fields.block_rows b (fields_at image.now b))) }
    ensures typed { OnOk result (AreTypedTuples (code_at image.now b).tuples) }
{
    write_line(out, Line::Opens { number: b })?;
    write_tuples(out, image.tuples(b))?;
    write_masks(out, image.masks(b))?;
    write_streams(out, image, b)?;
    write_line(
        out,
        Line::Follows {
            next: image.next(b),
        },
    )
}

fn write_blocks(out: &mut Vec<u8>, image: &Image) -> Result<(), AllocError>
    ensures text { OnOk result (out.new.items
        ≡ out.old.items ++ text_of_rows (fields.blocks_rows 0 (blocks_from image.now 0 (length image.now.blocks)))) }
    ensures typed { OnOk result ((b : ℕ) → b < length image.now.blocks → AreTypedTuples (code_at image.now b).tuples) }
    ensures lawful { OnOk result (IsImage image.now) }
    ensures few { OnOk result (length image.now.blocks ≤ 4294967296) }
{
    for b in 0..image.blocks() {
        write_block(out, image, b)?;
    }
    Ok(())
}

/// The version that has a machine with so many processors and this delay.
fn version(processors: u8, delay: u8) -> u8
    ensures { result ≡ version_of processors delay }
{
    if processors > 64 {
        3
    } else if delay > 0 {
        2
    } else {
        1
    }
}

fn write_barrier(out: &mut Vec<u8>, version: u8, barrier: u8) -> Result<(), AllocError>
    ensures { OnOk result (out.new.items ≡ out.old.items ++ text_of_rows (fields.barrier_rows version barrier)) }
{
    if version == 1 {
        Ok(())
    } else {
        write_line(out, Line::Barrier { delay: barrier })
    }
}

fn write_head(out: &mut Vec<u8>, version: u8, processors: u8, barrier: u8) -> Result<(), AllocError>
    ensures { OnOk result (out.new.items ≡ out.old.items ++ text_of_rows (fields.head_rows version processors barrier)) }
{
    write_line(out, Line::Version { version })?;
    write_line(out, Line::Processors { count: processors })?;
    write_barrier(out, version, barrier)
}

/// The lines up to the first block.
fn write_top(out: &mut Vec<u8>, machine: &Spec, names: &Names) -> Result<(), AllocError>
    ensures text { OnOk result (out.new.items
        ≡ out.old.items ++ text_of_rows (head_lines machine.now ++ (time_lines machine.now classes ++ map (λ e. spec.Named e) names.now))) }
    ensures machine { OnOk result (IsMachine machine.now) }
    ensures names { OnOk result (AreNames names.now) }
    ensures typed { OnOk result (AreTypedNames names.now) }
{
    let (processors, delay) = (machine.processors(), machine.barrier());
    write_head(out, version(processors, delay), processors, delay)?;
    write_times(out, machine)?;
    write_names(out, names)
}

fn write_fields(out: &mut Vec<u8>, image: &Image) -> Result<(), AllocError>
    ensures text { OnOk result (out.new.items ≡ out.old.items ++ fields.text_of (fields_of image.now)) }
    ensures image { OnOk result (IsTextOfImage (fields.text_of (fields_of image.now)) image.now) }
{
    write_top(out, image.spec(), image.names())?;
    write_blocks(out, image)?;
    write_line(out, Line::Ends)
}

/// The text of an image. It fails only where memory runs out.
pub fn write_image(alloc: Global, image: &Image) -> Result<Vec<u8>, AllocError>
    ensures text { IfOk result (λ v. v.items ≡ fields.text_of (fields_of image.now)) }
    // So `load` gives this image again for what was written, unless memory runs out.
    ensures image { IfOk result (λ v. IsTextOfImage v.items image.now) }
{
    let mut out = Vec::new(alloc);
    write_fields(&mut out, image)?;
    Ok(out)
}
