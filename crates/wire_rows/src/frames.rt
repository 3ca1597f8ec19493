//! Numbers, texts and frames.

use crate::notes::{Notes, four, number, pair};
use bytes::BytesMut;
use my_frame::numbers::take_len;
use my_frame::writing::put_len;
use my_frame::{CodecError, PacketCodec, Text, append_payload};

/// `length BYTES = NUMBER LEFT`, or `none`: the number at the front, and how many bytes are after it.
pub fn length(notes: &mut Notes, given: &str) {
    let bytes = notes.spelled(given);
    match take_len(bytes.as_slice()) {
        Some((number, rest)) => notes.record(&[number, rest.len() as u64], &[]),
        None => notes.word("none"),
    }
}

/// `shortest NUMBER = BYTES`: the number as it is written.
pub fn shortest(notes: &mut Notes, given: &str) {
    let mut out = Vec::new(notes.alloc);
    notes.must(put_len(&mut out, number(given)).is_ok());
    notes.bytes(out.as_slice());
}

/// `copied TEXT = TEXT`: the copy of a text.
pub fn copied(notes: &mut Notes, given: &str) {
    let text = Text::from_str(notes.alloc, given).unwrap_or(Text::new(notes.alloc));
    match text.copy(notes.alloc) {
        Ok(copy) => notes.word(copy.as_str()),
        Err(_) => notes.must(false),
    }
}

// A payload, `none` where none is whole, or the fault.
fn note_decoded(notes: &mut Notes, read: Result<Option<Vec<u8>>, CodecError>) {
    match read {
        Ok(Some(payload)) => notes.bytes(payload.as_slice()),
        Ok(None) => notes.word("none"),
        Err(error) => notes.shown(&error),
    }
}

/// `stream LIMIT BYTES = FOUND FOUND LEFT`: what is decoded first and then, and what is left.
pub fn stream(notes: &mut Notes, given: &str) {
    let (limit, digits) = pair(given);
    let bytes = notes.spelled(digits);
    let mut codec = PacketCodec::new();
    codec.set_max_allowed_packet(number(limit));
    let mut wire = BytesMut::new(notes.alloc);
    notes.must(wire.extend_from_slice(bytes.as_slice()).is_ok());
    note_decoded(notes, codec.decode(notes.alloc, &mut wire));
    note_decoded(notes, codec.decode(notes.alloc, &mut wire));
    notes.bytes(wire.as_slice());
}

/// `drips BYTES = FOUND.. LEFT LIMIT`: what is decoded after each of the bytes, which come one by one, what is left, and the
/// limit where none was set.
pub fn drips(notes: &mut Notes, given: &str) {
    let stream = notes.spelled(given);
    let mut codec = PacketCodec::new();
    let mut wire = BytesMut::new(notes.alloc);
    for byte in stream.as_slice() {
        let _ = wire.extend_from_slice(&[*byte]);
        note_decoded(notes, codec.decode(notes.alloc, &mut wire));
    }
    notes.bytes(wire.as_slice());
    notes.number(codec.max_allowed_packet());
}

/// `unsent LIMIT BYTES = FAULT SENT`: why a payload is refused, and what is sent.
pub fn unsent(notes: &mut Notes, given: &str) {
    let (limit, digits) = pair(given);
    let payload = notes.spelled(digits);
    let mut codec = PacketCodec::new();
    codec.set_max_allowed_packet(number(limit));
    let mut wire = BytesMut::new(notes.alloc);
    match codec.encode(payload.as_slice(), &mut wire) {
        Ok(()) => notes.word("sent"),
        Err(error) => notes.shown(&error),
    }
    notes.bytes(wire.as_slice());
}

/// `follow BYTES PAYLOAD ID = NEXT BYTES`: a payload with this sequence id after these bytes, and the next sequence id.
pub fn follow(notes: &mut Notes, given: &str) {
    let [bytes, payload, id, _] = four(given, ' ');
    let bytes = notes.spelled(bytes);
    let payload = notes.spelled(payload);
    let mut wire = BytesMut::new(notes.alloc);
    notes.must(wire.extend_from_slice(bytes.as_slice()).is_ok());
    match append_payload(&mut wire, payload.as_slice(), id.parse::<u8>().unwrap_or(0)) {
        Ok(next) => notes.number(u64::from(next)),
        Err(_) => notes.must(false),
    }
    notes.bytes(wire.as_slice());
}

// At most five bytes from this place on.
fn some_at(stream: &[u8], place: u64) -> &[u8] {
    match stream.get(place as usize..) {
        Some(rest) => &rest[..rest.len().min(5)],
        None => b"",
    }
}

/// `chunks LENGTH PLACE = FIRST LAST ALL IS_READ LEFT`: a payload of this length is sent and read back. What its first chunk
/// begins with, what the last one at this place does, how many bytes are sent, whether it is read back, and how many bytes
/// are left then.
pub fn chunks(notes: &mut Notes, given: &str) {
    let (length, place) = pair(given);
    let payload = vec![in notes.alloc; 7u8; number(length) as usize].unwrap_or(Vec::new(
        notes.alloc,
    ));
    let mut codec = PacketCodec::new();
    codec.set_max_allowed_packet(1_073_741_824);
    let mut wire = BytesMut::new(notes.alloc);
    notes.must(codec.encode(payload.as_slice(), &mut wire).is_ok());
    notes.bytes(some_at(wire.as_slice(), 0));
    notes.bytes(some_at(wire.as_slice(), number(place)));
    notes.number(wire.len() as u64);
    codec.reset_seq_id();
    match codec.decode(notes.alloc, &mut wire) {
        Ok(Some(back)) => notes.shown(&(back.as_slice() == payload.as_slice())),
        _ => notes.word("none"),
    }
    notes.number(wire.len() as u64);
}
