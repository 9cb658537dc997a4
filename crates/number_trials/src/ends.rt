use ix_outside::{
    CountSink, FailSink, FailSource, Failed, MemSink, MemSource, Sink, Source, StdSink, StdSource,
    TakeFault, read_whole, write_whole,
};
use std::alloc::{AllocError, Global};
use std::test::Fail;

/// Five thousand bytes.
fn sevens(alloc: Global) -> Result<Vec<u8>, AllocError> {
    vec![in alloc; 7u8; 5000]
}

#[test]
fn reads_to_the_end_within_the_limit(rt: HostRuntime) -> Result<(), Fail> {
    let mut source = MemSource::new(sevens(rt.alloc())?);
    let all = read_whole(rt.alloc(), &mut source, 5000)?;
    assert!(rt; all.as_slice() == sevens(rt.alloc())?.as_slice());
    assert!(rt; matches!(&source.take(&mut [0u8; 1]), Ok(0)));
    Ok(())
}

#[test]
fn reads_no_more_than_the_limit(rt: HostRuntime) -> Result<(), AllocError> {
    let mut source = MemSource::new(sevens(rt.alloc())?);
    let found = read_whole(rt.alloc(), &mut source, 4999);
    assert!(rt; matches!(&found, Err(TakeFault::TooLarge)));
    Ok(())
}

/// A piece that a sink is given, whether the sink takes all of it, and what it then holds.
type Piece = (&'static [u8], bool, &'static [u8]);

/// What a sink with room for five bytes keeps.
const KEPT: [Piece; 2] = [(b"abc", true, b"abc"), (b"defg", false, b"abcde")];

/// Whether a sink in memory takes a piece so.
fn keeps(sink: &mut MemSink, piece: &[u8], is_whole: bool, held: &[u8]) -> bool {
    write_whole(sink, piece).is_ok() == is_whole && sink.held() == held
}

#[test]
fn keeps_what_finds_room(rt: HostRuntime) -> Result<(), Fail> {
    let mut sink = MemSink::new(rt.alloc(), 5)?;
    for (piece, is_whole, held) in &KEPT {
        assert!(rt; keeps(&mut sink, piece, *is_whole, held));
    }
    assert!(rt; matches!(&sink.put(b""), Ok(0)));
    assert!(rt; matches!(&sink.put(b"h"), Err(Failed)));
    Ok(())
}

#[test]
fn hands_on_what_a_reader_gives(rt: HostRuntime) -> Result<(), Fail> {
    let mut source = StdSource::new(b"abc".as_slice());
    let all = read_whole(rt.alloc(), &mut source, 3)?;
    assert!(rt; all.as_slice() == b"abc".as_slice());
    Ok(())
}

#[test]
fn hands_on_to_a_writer(rt: HostRuntime) -> Result<(), Fail> {
    let mut taken = Vec::new(rt.alloc());
    write_whole(&mut StdSink::new(&mut taken), b"abc")?;
    assert!(rt; taken.as_slice() == b"abc".as_slice());
    Ok(())
}

/// How many of five bytes the sink of a writer takes by one call.
fn taken_at_once(alloc: Global) -> Option<usize> {
    let mut taken = Vec::new(alloc);
    StdSink::new(&mut taken).put(b"abcde").ok()
}

#[test]
fn takes_a_piece_at_once(rt: HostRuntime) {
    assert!(rt; taken_at_once(rt.alloc()) == Some(5));
}

/// A source of five bytes that gives two at most, and fails at these calls.
fn failing(alloc: Global, fail_at: &[u64]) -> Result<FailSource, AllocError> {
    let bytes = Vec::from_array(alloc, [1u8, 2, 3, 4, 5])?;
    let fail_at = Vec::from_slice(alloc, fail_at)?;
    Ok(FailSource::new(bytes, 2, fail_at))
}

/// The two bytes that the next call gives, if it gives two.
fn two(source: &mut FailSource) -> Option<[u8; 4]> {
    let mut chunk = [0u8; 4];
    match source.take(&mut chunk) {
        Ok(2) => Some(chunk),
        _ => None,
    }
}

#[test]
fn gives_a_few_and_fails_where_told(rt: HostRuntime) -> Result<(), Fail> {
    // The third call fails, and takes nothing.
    let mut source = failing(rt.alloc(), &[3])?;
    assert!(rt; two(&mut source) == Some([1, 2, 0, 0]));
    assert!(rt; two(&mut source) == Some([3, 4, 0, 0]));
    assert!(rt; matches!(&source.take(&mut [0u8; 4]), Err(Failed)));
    let rest = read_whole(rt.alloc(), &mut source, 5)?;
    assert!(rt; rest.as_slice() == [5u8].as_slice());
    Ok(())
}

#[test]
fn reads_nothing_whole_where_a_call_fails(rt: HostRuntime) -> Result<(), AllocError> {
    let mut source = failing(rt.alloc(), &[4, 2])?;
    let found = read_whole(rt.alloc(), &mut source, 5);
    assert!(rt; matches!(&found, Err(TakeFault::Fault)));
    Ok(())
}

/// Whether a sink that takes a few bytes a call takes a piece so.
fn takes(sink: &mut FailSink, piece: &[u8], is_whole: bool, held: &[u8]) -> bool {
    write_whole(sink, piece).is_ok() == is_whole && sink.held() == held
}

/// What a sink takes of which the third call fails, and appends nothing.
const TAKEN: [Piece; 3] = [
    (b"abcdef", false, b"abcd"),
    (b"ef", true, b"abcdef"),
    (b"ghi", false, b"abcdefgh"),
];

#[test]
fn takes_a_few_and_fails_where_told(rt: HostRuntime) -> Result<(), Fail> {
    let mut sink = FailSink::new(rt.alloc(), 8, 2, vec![in rt.alloc(); 3u64]?)?;
    for (piece, is_whole, held) in &TAKEN {
        assert!(rt; takes(&mut sink, piece, *is_whole, held));
    }
    assert!(rt; matches!(&sink.put(b""), Ok(0)));
    Ok(())
}

/// What a sink answers to pieces of two bytes and of none after three bytes, and how many it then counts.
fn counted() -> Option<(usize, usize, u64)> {
    let mut sink = CountSink::new();
    write_whole(&mut sink, b"abc").ok()?;
    let two = sink.put(b"de").ok()?;
    let none = sink.put(b"").ok()?;
    Some((two, none, sink.taken()))
}

#[test]
fn counts_what_it_takes(rt: HostRuntime) {
    assert!(rt; counted() == Some((2, 0, 5)));
}
