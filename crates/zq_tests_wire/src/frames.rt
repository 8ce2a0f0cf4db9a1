use zmtp_frame::{
    Flags, FrameKind, FrameReader, Head, Step, encode_head, read_flags, size_limit, write_flags,
};

/// A kind, a size, and the octets of the head that is written (RFC 23, "Framing").
const WRITTEN: [(FrameKind, u64, &[u8]); 6] = [
    (FrameKind::Last, 0, b"\x00\x00"),
    (FrameKind::More, 5, b"\x01\x05"),
    (FrameKind::Last, 255, b"\x00\xff"),
    (
        FrameKind::Last,
        256,
        b"\x02\x00\x00\x00\x00\x00\x00\x01\x00",
    ),
    (FrameKind::Command, 26, b"\x04\x1a"),
    (
        FrameKind::Command,
        65_536,
        b"\x06\x00\x00\x00\x00\x00\x01\x00\x00",
    ),
];

// Whether a size is within the limit of its kind, and its head is written so.
fn is_written(kind: FrameKind, size: u64, octets: &[u8]) -> bool {
    if size > size_limit(kind) {
        return false;
    }
    let head = encode_head(kind, size);
    if head.as_slice() != octets || head.len() != octets.len() {
        return false;
    }
    write_flags(kind, octets.len() == 9) == octets[0]
}

#[test]
fn heads_are_written_short_up_to_255_octets(rt: HostRuntime) {
    for (kind, size, octets) in &WRITTEN {
        assert!(rt; is_written(*kind, *size, octets));
    }
}

/// Octets that begin a frame, and the step that they end in.
const READ: [(&[u8], Step); 8] = [
    (b"\x00\x05", Step::Head(FrameKind::Last, 5)),
    (
        b"\x02\x00\x00\x00\x00\x00\x00\x00\x03",
        Step::Head(FrameKind::Last, 3),
    ),
    (
        b"\x03\x00\x00\x00\x00\x00\x00\x01\x02",
        Step::Head(FrameKind::More, 258),
    ),
    (b"\x08", Step::BadFlags(8)),
    (b"\x05", Step::BadFlags(5)),
    (
        b"\x02\x00\x00\x00\x00\x01\x00\x00\x01",
        Step::TooLong(16_777_217),
    ),
    (
        b"\x06\x00\x00\x00\x00\x00\x01\x00\x01",
        Step::TooLong(65_537),
    ),
    (b"\x02\x00\x00", Step::NeedMore),
];

// Whether the reader takes so many octets of the piece, and tells this.
fn tells(reader: &mut FrameReader, piece: &[u8], count: usize, told: Step) -> bool {
    let (taken, step) = reader.feed(piece);
    taken == count && step == told
}

// Whether two pieces are taken whole, and this is told with the last octet.
fn ends_so(front: &[u8], back: &[u8], end: Step) -> bool {
    let mut reader = FrameReader::new();
    let begun = tells(&mut reader, front, front.len(), Step::NeedMore);
    begun && tells(&mut reader, back, back.len(), end)
}

// Whether it is, wherever the octets are cut.
fn ends_so_however_cut(octets: &[u8], end: Step) -> bool {
    for cut in 0..octets.len() {
        let (front, back) = octets.split_at(cut);
        if !ends_so(front, back, end) {
            return false;
        }
    }
    true
}

#[test]
fn heads_are_read_in_any_two_pieces(rt: HostRuntime) {
    for (octets, end) in &READ {
        assert!(rt; ends_so_however_cut(octets, *end));
    }
}

// Whether behind these octets no further one is taken, and the refusal is told again.
fn is_told_again(octets: &[u8], refusal: Step) -> bool {
    let mut reader = FrameReader::new();
    let refused = tells(&mut reader, octets, octets.len(), refusal);
    refused && tells(&mut reader, b"\x00\x00", 0, refusal)
}

#[test]
fn a_refusal_is_told_again(rt: HostRuntime) {
    let long: &[u8] = b"\x02\x00\x00\x00\x00\x01\x00\x00\x01";
    let flags = is_told_again(b"\x08", Step::BadFlags(8));
    assert!(rt; flags && is_told_again(long, Step::TooLong(16_777_217)));
}

/// Pieces of two frames, how many octets of each are taken, and what is told.
const PIECES: [(&[u8], usize, Step); 5] = [
    (b"\x01\x03ab", 2, Step::Head(FrameKind::More, 3)),
    (b"ab", 2, Step::Piece(0, 2)),
    (b"", 0, Step::NeedMore),
    (b"c\x00", 1, Step::Piece(0, 1)),
    (b"\x00", 0, Step::FrameEnd),
];

#[test]
fn a_body_is_told_by_its_parts_and_its_end(rt: HostRuntime) {
    let mut reader = FrameReader::new();
    for (piece, count, told) in &PIECES {
        assert!(rt; tells(&mut reader, piece, *count, *told));
    }
}

// What is left of a body of three octets, of which none came.
fn left_of_three() -> Option<u64> {
    let mut reader = FrameReader::new();
    reader.feed(b"\x01\x03");
    reader.left()
}

#[test]
fn what_is_left_is_told(rt: HostRuntime) {
    let more = Flags {
        kind: FrameKind::More,
        long: false,
    };
    assert!(rt; left_of_three() == Some(3) && read_flags(1) == Some(more));
}
