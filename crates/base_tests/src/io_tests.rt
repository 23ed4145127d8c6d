// Each call once on its happy path, through its bound, and faults in mid-stream.
use bm_io::*;
use std::alloc::{AllocError, Global};
use std::test::Fail;

/// The bytes as a text, or the fault.
fn shown(alloc: Global, answer: Result<Vec<u8>, FileFault>) -> Result<String, AllocError> {
    match answer {
        Ok(bytes) => String::from_utf8_lossy(alloc, &bytes),
        Err(FileFault::Failed) => String::from_str(alloc, "failed"),
        Err(FileFault::Memory) => String::from_str(alloc, "memory"),
    }
}

/// Whether files answer reads so: a name, a limit, and the bytes as a text.
fn reads<F: Files>(
    files: &mut F,
    alloc: Global,
    table: &[(&str, usize, &str)],
) -> Result<bool, AllocError> {
    for (name, most, want) in table {
        let answer = files.read(alloc, name, *most);
        if shown(alloc, answer)?.as_str() != *want {
            return Ok(false);
        }
    }
    Ok(true)
}

/// Whether files answer writes so: a name, the bytes, and the answer.
fn puts<F: Files>(files: &mut F, table: &[(&str, &str, Result<(), FileFault>)]) -> bool {
    for (name, bytes, want) in table {
        if files.write(name, bytes.as_bytes()) != *want {
            return false;
        }
    }
    true
}

const READS: [(&str, usize, &str); 7] = [
    ("a", 10, "hello"),
    ("a", 1, "he"),
    ("a", 10, "failed"),
    ("c", 10, "failed"),
    ("b", 10, ""),
    ("a", 4, "hello"),
    ("a", usize::MAX, "hello"),
];

#[test]
fn memory_files_fail_where_planned_and_where_none_is_held(rt: HostRuntime) -> Result<(), Fail> {
    let mut files = MemFiles::new(rt.alloc());
    files.hold("a", b"old")?;
    files.hold("b", b"")?;
    files.hold("a", b"hello")?;
    files.fail(3)?;
    files.fail(3)?;
    assert!(rt; reads(&mut files, rt.alloc(), &READS)? && files.held("c").is_none());
    Ok(())
}

const WRITES: [(&str, &str, Result<(), FileFault>); 3] = [
    ("b", "new", Ok(())),
    ("a", "new", Err(FileFault::Failed)),
    ("c", "", Ok(())),
];

const KEPT: [(&str, usize, &str); 3] = [("a", 9, "old"), ("b", 9, "new"), ("c", 9, "")];

#[test]
fn a_planned_write_leaves_what_is_held(rt: HostRuntime) -> Result<(), Fail> {
    let mut files = MemFiles::new(rt.alloc());
    files.hold("a", b"old")?;
    files.hold("c", b"old")?;
    files.fail(2)?;
    assert!(rt; puts(&mut files, &WRITES) && reads(&mut files, rt.alloc(), &KEPT)?);
    Ok(())
}

const SURE: [(&str, usize, &str); 4] = [
    ("a", 10, "hello"),
    ("c", 10, ""),
    ("a", 0, "h"),
    ("d", 9, "new"),
];

#[test]
fn sure_files_read_a_missing_name_as_empty(rt: HostRuntime) -> Result<(), Fail> {
    let mut files = SureFiles::new(rt.alloc());
    files.hold("a", b"hello")?;
    let put = puts(&mut files, &[("d", "new", Ok(()))]);
    assert!(rt; put && reads(&mut files, rt.alloc(), &SURE)? && files.held("c").is_none());
    Ok(())
}

const PIECES: [(&str, Result<(), SinkFault>, &str); 6] = [
    ("ab", Ok(()), "ab"),
    ("cd", Err(SinkFault::Failed), "abc"),
    ("ef", Err(SinkFault::Memory), "abc"),
    ("gh", Ok(()), "abcgh"),
    ("ij", Err(SinkFault::Failed), "abcghij"),
    ("", Ok(()), "abcghij"),
];

/// Whether the sink answers these pieces so, and has then taken that.
fn takes(sink: &mut MemSink, table: &[(&str, Result<(), SinkFault>, &str)]) -> bool {
    for (piece, answer, taken) in table {
        if sink.write(piece.as_bytes()) != *answer || sink.taken() != taken.as_bytes() {
            return false;
        }
    }
    true
}

#[test]
fn a_memory_sink_refuses_what_was_named_first(rt: HostRuntime) -> Result<(), Fail> {
    let mut sink = MemSink::new(rt.alloc());
    sink.fail(2, 1)?;
    sink.refuse(3)?;
    sink.fail(3, 2)?;
    sink.fail(5, 9)?;
    sink.refuse(5)?;
    assert!(rt; takes(&mut sink, &PIECES) && sink.writes() == 6);
    Ok(())
}

#[test]
fn a_sure_sink_takes_each_piece(rt: HostRuntime) {
    let mut sink = SureSink::new(rt.alloc());
    let all = sink.write(b"ab").is_ok() && sink.write(b"").is_ok() && sink.write(b"cde").is_ok();
    assert!(rt; all && sink.taken() == b"abcde".as_slice());
}

/// A file without an end, one without a byte, a folder, and none: how many bytes are read.
const DEVICES: [(&str, usize, Option<usize>); 5] = [
    ("/dev/zero", 9000, Some(9001)),
    ("/dev/zero", 0, Some(1)),
    ("/dev/null", usize::MAX, Some(0)),
    ("/", 9, None),
    ("no such file", 9, None),
];

fn counts<F: Files>(files: &mut F, alloc: Global, table: &[(&str, usize, Option<usize>)]) -> bool {
    for (name, most, want) in table {
        let count = match files.read(alloc, name, *most) {
            Ok(bytes) => Some(bytes.len()),
            Err(_) => None,
        };
        if count != *want {
            return false;
        }
    }
    true
}

#[test]
fn real_files_are_read_up_to_the_limit(rt: HostRuntime) {
    let mut files = RealFiles::new(&rt);
    assert!(rt; counts(&mut files, rt.alloc(), &DEVICES));
}

const REAL: [(&str, &str, Result<(), FileFault>); 5] = [
    ("bm_io_written", "second, longer", Ok(())),
    ("/dev/null", "gone", Ok(())),
    ("/dev/full", "bytes", Err(FileFault::Failed)),
    ("/", "bytes", Err(FileFault::Failed)),
    ("no such folder/file", "bytes", Err(FileFault::Failed)),
];

#[test]
fn a_real_file_is_replaced_and_a_device_is_not(rt: HostRuntime) -> Result<(), Fail> {
    let mut files = RealFiles::new(&rt);
    let name = "bm_io_written";
    let first = puts(&mut files, &[(name, "first", Ok(()))]);
    let second = puts(&mut files, &REAL)
        && reads(&mut files, rt.alloc(), &[(name, 99, "second, longer")])?;
    let empty = puts(&mut files, &[(name, "", Ok(()))])
        && reads(&mut files, rt.alloc(), &[(name, 99, "")])?;
    assert!(rt; first && second && empty && std::fs::remove_file(&rt, name).is_ok());
    Ok(())
}

/// A name of 250 bytes in a folder. A name of its own with an ending behind it would be too long.
fn long_name(alloc: Global) -> Result<String, AllocError> {
    let mut name = String::from_str(alloc, "bm_io_folder/")?;
    for _ in 0..25 {
        name.push_str("bm_io_long")?;
    }
    Ok(name)
}

const LEFTOVER: &str = "bm_io_folder/bmimd.0.new";

#[test]
fn a_long_name_is_written_beside_a_leftover(rt: HostRuntime) -> Result<(), Fail> {
    let name = long_name(rt.alloc())?;
    let made = std::fs::create_dir(&rt, "bm_io_folder").is_ok();
    let mut files = RealFiles::new(&rt);
    let put = puts(
        &mut files,
        &[(LEFTOVER, "left", Ok(())), (name.as_str(), "new", Ok(()))],
    );
    let kept = reads(
        &mut files,
        rt.alloc(),
        &[
            (name.as_str(), 9, "new"),
            (LEFTOVER, 9, "left"),
            ("bm_io_folder/bmimd.1.new", 9, "failed"),
        ],
    )?;
    assert!(rt; made && put && kept);
    let gone = std::fs::remove_file(&rt, LEFTOVER).is_ok()
        && std::fs::remove_file(&rt, name.as_str()).is_ok()
        && std::fs::remove_dir(&rt, "bm_io_folder").is_ok();
    assert!(rt; gone);
    Ok(())
}

const WORDS: [i64; 4] = [7, -8, 0, i64::MIN];

fn take_all<V: Values>(out: &mut V, values: &[i64]) -> Result<(), SinkFault> {
    for value in values {
        out.value(*value)?;
    }
    Ok(())
}

/// A call that fails behind so many bytes, or that finds no memory; the answer; and the text.
const REFUSALS: [(u32, Option<usize>, Result<(), SinkFault>, &str); 5] = [
    (9, Some(0), Ok(()), "7\n-8\n0\n-9223372036854775808\n"),
    (1, Some(0), Err(SinkFault::Failed), ""),
    (2, Some(2), Err(SinkFault::Failed), "7\n-8"),
    (3, Some(9), Err(SinkFault::Failed), "7\n-8\n0\n"),
    (2, None, Err(SinkFault::Memory), "7\n"),
];

/// Whether the words are written as this text, with this answer.
fn written(
    alloc: Global,
    call: u32,
    taken: Option<usize>,
    answer: Result<(), SinkFault>,
    text: &str,
) -> Result<bool, AllocError> {
    let mut sink = MemSink::new(alloc);
    match taken {
        Some(bytes) => sink.fail(call, bytes)?,
        None => sink.refuse(call)?,
    }
    let mut lines = LineValues::new(&mut sink);
    Ok(take_all(&mut lines, &WORDS) == answer && sink.taken() == text.as_bytes())
}

fn all_written(alloc: Global) -> Result<bool, AllocError> {
    for (call, taken, answer, text) in &REFUSALS {
        if !written(alloc, *call, *taken, *answer, text)? {
            return Ok(false);
        }
    }
    Ok(true)
}

#[test]
fn values_are_written_as_lines_up_to_a_refusal(rt: HostRuntime) -> Result<(), Fail> {
    assert!(rt; all_written(rt.alloc())?);
    Ok(())
}

#[test]
fn values_are_counted_and_folded(rt: HostRuntime) {
    let mut kept = FoldValues::default();
    let mut last = FoldValues {
        count: u64::MAX,
        fold: i64::MAX,
    };
    let both = take_all(&mut kept, &WORDS[..3]).is_ok() && take_all(&mut last, &[0]).is_ok();
    assert!(rt;
        both && kept.count == 3
            && kept.fold == 6479
            && last.count == 0
            && last.fold == i64::MAX - 30
    );
}
