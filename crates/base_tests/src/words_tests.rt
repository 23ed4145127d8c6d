// Worked values of words, texts of numbers, lines, masks, machines and names.
use bm_base::*;
use std::test::Fail;

const MIN: i64 = i64::MIN;

const VALUES: [(Bin, i64, i64, i64); 12] = [
    (Bin::Sub, -i64::MAX, 1, MIN),
    (Bin::Div, MIN, -1, MIN),
    (Bin::Rem, MIN, -1, 0),
    (Bin::Div, 5, 0, 0),
    (Bin::Rem, 5, 0, 0),
    (Bin::Shl, 1, 64, 1),
    (Bin::Shl, 1, -1, MIN),
    (Bin::Shr, MIN, 63, -1),
    (Bin::Div, -7, 2, -3),
    (Bin::Rem, -7, 2, -1),
    (Bin::Lt, MIN, 0, 1),
    (Bin::Xor, 6, 3, 5),
];

fn has_values(table: &[(Bin, i64, i64, i64)]) -> bool {
    for (op, a, b, want) in table {
        if apply2(*op, *a, *b) != *want {
            return false;
        }
    }
    true
}

#[test]
fn operators_have_their_worked_values(rt: HostRuntime) {
    let unary = apply1(Un::Neg, MIN) == MIN && apply1(Un::Not, 5) == -6;
    assert!(rt; unary && has_values(&VALUES));
}

const NUMBERS: [(&str, Option<i64>); 8] = [
    ("9223372036854775807", Some(i64::MAX)),
    ("9223372036854775808", None),
    ("-9223372036854775808", Some(MIN)),
    ("-9223372036854775809", None),
    ("007", Some(7)),
    ("", None),
    ("-", None),
    ("+1", None),
];

const STRICT_NUMBERS: [(&str, Option<i64>); 5] = [
    ("0", Some(0)),
    ("-9223372036854775808", Some(MIN)),
    ("007", None),
    ("-0", None),
    ("-07", None),
];

fn are_numbers(strict: bool, table: &[(&str, Option<i64>)]) -> bool {
    for (text, want) in table {
        let read = if strict {
            strict_number(text.as_bytes())
        } else {
            number(text.as_bytes())
        };
        if read.ok() != *want {
            return false;
        }
    }
    true
}

#[test]
fn numbers_are_read_in_their_ranges(rt: HostRuntime) {
    assert!(rt; are_numbers(false, &NUMBERS) && are_numbers(true, &STRICT_NUMBERS));
}

const COUNTS: [(&str, bool, Option<u64>); 5] = [
    ("18446744073709551615", false, Some(u64::MAX)),
    ("18446744073709551616", false, None),
    ("-1", false, None),
    ("18446744073709551615", true, Some(u64::MAX)),
    ("00", true, None),
];

const MASKS: [(&str, Option<u128>); 7] = [
    ("0", Some(0)),
    ("80000000000000000000000000000001", Some((1 << 127) + 1)),
    ("ffffffffffffffffffffffffffffffff", Some(u128::MAX)),
    ("100000000000000000000000000000000", None),
    ("0a", None),
    ("A", None),
    ("", None),
];

fn are_counts(table: &[(&str, bool, Option<u64>)]) -> bool {
    for (text, strict, want) in table {
        let read = if *strict {
            strict_count(text.as_bytes())
        } else {
            count(text.as_bytes())
        };
        if read.ok() != *want {
            return false;
        }
    }
    true
}

fn are_masks(table: &[(&str, Option<u128>)]) -> bool {
    for (text, want) in table {
        if hex(text.as_bytes()).ok() != *want {
            return false;
        }
    }
    true
}

#[test]
fn counts_and_masks_have_their_spellings(rt: HostRuntime) {
    assert!(rt; are_counts(&COUNTS) && are_masks(&MASKS));
}

const LINES: [(u32, &str, bool); 3] = [(1, "a b", true), (2, "", true), (3, "c", false)];

fn has_lines(table: &[(u32, &str, bool)]) -> bool {
    let mut lines = Lines::new(b"a b\n\nc");
    for (number, bytes, ended) in table {
        let want = LineOf {
            number: *number,
            bytes: bytes.as_bytes(),
            ended: *ended,
        };
        if lines.next() != Some(want) {
            return false;
        }
    }
    lines.next().is_none()
}

#[test]
fn lines_are_counted_from_1(rt: HostRuntime) {
    assert!(rt; has_lines(&LINES));
}

#[test]
fn a_sequence_holds_its_values(rt: HostRuntime) -> Result<(), Fail> {
    let mut values = Sequence::from_vec(vec![in rt.alloc(); 1, 2]?);
    values.push(3)?;
    values.set(0, 7);
    let last = values.pop();
    let held = values.items() == [7, 2].as_slice();
    let none = Sequence::<i64>::new(rt.alloc()).items().is_empty();
    assert!(rt; last == Some(3) && held && none && values.into_vec().len() == 2);
    Ok(())
}

#[test]
fn a_piece_is_put_together(rt: HostRuntime) {
    let mut mask = Mask::empty();
    mask.insert(1);
    mask.insert(127);
    let mut piece = Piece::new();
    piece.text(b"fire ");
    piece.number(-12);
    piece.text(b" ");
    piece.count(34);
    piece.text(b" ");
    piece.mask(mask);
    assert!(rt; piece.bytes() == b"fire -12 34 80000000000000000000000000000002".as_slice());
}

#[test]
fn masks_are_sets(rt: HostRuntime) {
    let mut low = Mask::empty();
    let empty = low.is_empty();
    low.insert(0);
    low.insert(127);
    let mut high = Mask::empty();
    high.insert(127);
    let members = low.has(127) && !low.has(1) && !low.has(200) && low.next_member(1) == Some(127);
    let sets = low.meets(high) && high.is_within(low) && low.union(high) == low;
    let left = low.without(high);
    assert!(rt; empty && members && sets && low.next_member(128).is_none());
    assert!(rt; left.has(0) && !left.has(127));
}

/// The first numbers that SplitMix64 gives from the seed 0.
#[test]
fn bits_are_mixed(rt: HostRuntime) {
    let first = mixed(0x9E37_79B9_7F4A_7C15) == 0xE220_A839_7B1D_CDAF;
    assert!(rt; first && mixed(0x3C6E_F372_FE94_F82A) == 0x6E78_9E6A_A1B9_65F4);
}

const TIME: Interval = Interval {
    least: 2,
    most: 1000,
};

const BACKWARDS: Interval = Interval { least: 2, most: 1 };

#[test]
fn machines_are_in_range(rt: HostRuntime) {
    let standard = Spec::standard();
    assert!(rt; standard.processors() == 4 && standard.time(Class::LoadEl).most == 6);
    let made = Spec::new(128, 100, [TIME; 9]).is_some();
    let wide = Spec::new(129, 100, [TIME; 9]).is_none();
    let slow = Spec::new(128, 101, [TIME; 9]).is_none();
    assert!(rt; made && wide && slow && Spec::new(1, 0, [BACKWARDS; 9]).is_none());
}

const NAMES: [(&str, Kind, Result<u16, NamesFault>); 7] = [
    ("x", Kind::Var { initial: 4 }, Ok(0)),
    (
        "x",
        Kind::Array { len: 0 },
        Err(NamesFault::Twice { first: 0 }),
    ),
    ("A", Kind::Array { len: 0 }, Err(NamesFault::Size)),
    ("A", Kind::Array { len: 1_048_576 }, Ok(1)),
    ("B", Kind::Array { len: 1 }, Err(NamesFault::Size)),
    ("while", Kind::Var { initial: 0 }, Err(NamesFault::BadName)),
    ("9", Kind::Var { initial: 0 }, Err(NamesFault::BadName)),
];

fn adds(names: &mut Names, table: &[(&str, Kind, Result<u16, NamesFault>)]) -> bool {
    for (name, kind, want) in table {
        if names.add(name.as_bytes(), *kind) != *want {
            return false;
        }
    }
    true
}

#[test]
fn names_are_refused_in_order(rt: HostRuntime) -> Result<(), Fail> {
    let mut names = Names::new(rt.alloc());
    let added = adds(&mut names, &NAMES);
    let copy = names.copy(rt.alloc())?;
    assert!(rt;
        added && copy.len() == 2 && copy.find(b"A") == Some(1) && copy.find(b"B").is_none()
    );
    assert!(rt; Store::new(rt.alloc(), &copy).is_ok());
    Ok(())
}
