//! The text that is kept is read, frame by frame.
ghost use Rattle.std.specs.Prelude.{◌≡◌, ◌+◌, ◌^◌, ◌<◌, ◌≤◌, [], List, ℕ, length, take, Some, IfOk, IsErrOf, OnOk};
ghost use Rattle.std.specs.Int.{w32, to_be_bytes};
ghost use Rattle.outside_io.specs.Causes.{CountsFaults, one_more};
ghost use Rattle.kept_text.specs.Frames.{first_digest, most};
ghost use Rattle.frame_log.specs.Reads.{IsKept};
ghost use Rattle.frame_log.specs.Finding.{HasAdded, IsBody, IsFirstGate, IsFound, IsHead, IsNextFrame, IsSmall};

use crate::frames::{FRONT, HEADER, MOST, digest_of, first_digest};
use crate::reader::Reader;
use outside_io::{Failed, ReadEnd};
use refused_memory::extend_from_slice;
use std::alloc::Global;

/// A text that is kept, the digest of its last frame, and the place of its closed gate.
#[derive(Drop)]
pub struct KeptText {
    pub text: Vec<u8>,
    pub digest: [u8; 32],
    pub end: u64,
}

/// What is found in some bytes.
#[derive(Drop)]
pub enum Kept {
    /// A text.
    Text(KeptText),
    /// None: this frame, from 1, makes them foreign, and 0 stands for the header.
    Foreign { frame: u64 },
}

// The number of four bytes, the highest first.
fn number_of(four: &[u8]) -> u32
    requires { length four.now ≡ 4 }
    ensures { to_be_bytes w32 result ≡ four.now }
{
    u32::from_be_bytes([four[0], four[1], four[2], four[3]])
}

// The gate behind the header, where the header stands in front.
fn first_gate<R: Reader>(reader: &mut R) -> Result<Option<u8>, Failed>
    ensures found { IfOk result (λ gate. IsFirstGate (R.left reader.old) (R.left reader.new) gate) }
    ensures looks { R.looks reader.old reader.new }
    ensures count { CountsFaults (R.faults reader.old) (R.faults reader.new) result }
{
    let mut head = [0; 17];
    if !reader.take(&mut head)? {
        return Ok(None);
    }
    if head[..16] != HEADER[..] {
        return Ok(None);
    }
    Ok(Some(head[16]))
}

// How long a text is, and its digest, as its frame tells.
#[derive(Clone, Copy)]
struct Head {
    count: usize,
    digest: [u8; 32],
}

// Of the length and digest that are told, where the length is that of a piece.
fn head_of(front: &[u8; 36]) -> Option<Head>
    ensures { IsHead front.now result }
{
    let count = number_of(&front[..4]) as usize;
    if count == 0 || count > MOST {
        return None;
    }
    let mut digest = [0; 32];
    digest.copy_from_slice(&front[4..]);
    Some(Head { count, digest })
}

// Reads the text of this head, and the gate after it, into the room: the gate, where they are there and the digest is right.
fn gate_behind<R: Reader>(
    reader: &mut R,
    before: &[u8; 32],
    head: &Head,
    room: &mut [u8],
) -> Result<Option<u8>, Failed>
    requires { head.now.count < length room.old }
    ensures body { IfOk result (λ gate. IsBody before.now head.now.count head.now.digest
        (take head.now.count room.new) (R.left reader.old) (R.left reader.new) gate) }
    ensures looks { R.looks reader.old reader.new }
    ensures count { CountsFaults (R.faults reader.old) (R.faults reader.new) result }
{
    let count = head.count;
    if !reader.take(&mut room[..count + 1])? {
        return Ok(None);
    }
    if digest_of(before, &room[..count])[..] != head.digest[..] {
        return Ok(None);
    }
    Ok(Some(room[count]))
}

// A frame that was read: how long its text is, its digest, and the gate after it.
#[derive(Clone, Copy)]
struct Frame {
    head: Head,
    gate: u8,
}

// The frame behind an open gate, where one stands there. Its text is in the front of the room.
fn next_frame<R: Reader>(
    reader: &mut R,
    before: &[u8; 32],
    room: &mut [u8],
) -> Result<Option<Frame>, Failed>
    requires { length room.old ≡ 16385 }
    ensures frame { IfOk result (λ frame. IsNextFrame before.now room.new (R.left reader.old)
        (R.left reader.new) frame) }
    ensures looks { R.looks reader.old reader.new }
    ensures count { CountsFaults (R.faults reader.old) (R.faults reader.new) result }
{
    let mut front = [0; FRONT];
    if !reader.take(&mut front)? {
        return Ok(None);
    }
    let Some(head) = head_of(&front) else {
        return Ok(None);
    };
    match gate_behind(reader, before, &head, room)? {
        Some(gate) => Ok(Some(Frame { head, gate })),
        None => Ok(None),
    }
}

// What was found so far, and the gate behind it.
#[derive(Drop)]
struct SoFar {
    kept: KeptText,
    frames: u64,
    gate: u8,
}

// Nothing behind the header but a gate.
fn nothing_yet(alloc: Global, gate: u8) -> SoFar
    ensures text { result.kept.text.items ≡ [] }
    ensures digest { result.kept.digest ≡ first_digest }
    ensures end { result.kept.end ≡ 16 }
    ensures frames { result.frames ≡ 0 }
    ensures gate { result.gate ≡ gate }
{
    SoFar {
        kept: KeptText {
            text: Vec::new(alloc),
            digest: first_digest(),
            end: 16,
        },
        frames: 0,
        gate,
    }
}

// One frame more, where its text is within the limit.
fn add(so_far: &mut SoFar, frame: &Frame, room: &[u8], limit: usize) -> Result<(), ReadEnd>
    requires limit { limit ≤ 2 ^ 40 }
    requires count { frame.now.head.count ≤ most }
    requires room { frame.now.head.count ≤ length room.now }
    requires some { 0 < frame.now.head.count }
    requires small { IsSmall so_far.old limit }
    ensures small { OnOk result (IsSmall so_far.new limit) }
    ensures longer { OnOk result (length so_far.old.kept.text.items
        < length so_far.new.kept.text.items) }
    ensures added { OnOk result (HasAdded so_far.old frame.now (take frame.now.head.count room.now)
        so_far.new) }
    ensures fault { IsErrOf result ReadEnd.Fault → ⊥ }
{
    let count = frame.head.count;
    if count > limit - so_far.kept.text.len() {
        return Err(ReadEnd::Size);
    }
    extend_from_slice(&mut so_far.kept.text, &room[..count])?;
    so_far.kept.digest = frame.head.digest;
    so_far.kept.end += 37 + count as u64;
    so_far.frames += 1;
    so_far.gate = frame.gate;
    Ok(())
}

// Goes on from frame to frame, up to a closed gate, or to the end of what can be read.
fn go_on<R: Reader>(reader: &mut R, so_far: SoFar, limit: usize) -> Result<Kept, ReadEnd>
    requires limit { limit ≤ 2 ^ 40 }
    requires small { IsSmall so_far limit }
    ensures kept { IfOk result (λ kept. (bytes left : List ℕ) → R.left reader.old ≡ Some left
        → IsFound bytes so_far left → IsKept bytes kept) }
    ensures cause { IsErrOf result ReadEnd.Fault
        → R.faults reader.new ≡ one_more (R.faults reader.old) }
    ensures same { (IsErrOf result ReadEnd.Fault → ⊥)
        → R.faults reader.new ≡ R.faults reader.old }
    ensures looks { (before : R) → R.looks before reader.old → R.looks before reader.new }
{
    let mut so_far = so_far;
    let mut room = [0; 16385];
    while so_far.gate == 1 {
        match next_frame(reader, &so_far.kept.digest, &mut room) {
            Ok(Some(frame)) => add(&mut so_far, &frame, &room, limit)?,
            Ok(None) => {
                return Ok(Kept::Foreign {
                    frame: so_far.frames + 1,
                });
            }
            Err(_) => return Err(ReadEnd::Fault),
        }
    }
    Ok(Kept::Text(so_far.kept))
}

/// Reads a file from its front, frame by frame, up to its closed gate: the text that is kept, which has at most so many bytes. With
/// `Fault` a read failed, with `Size` there are more bytes than the limit, with `Memory` memory was wanting.
pub fn read_text<R: Reader>(alloc: Global, reader: &mut R, limit: usize) -> Result<Kept, ReadEnd>
    requires { limit ≤ 2 ^ 40 }
    ensures kept { IfOk result (λ kept. (bytes : List ℕ) → R.left reader.old ≡ Some bytes
        → IsKept bytes kept) }
    ensures cause { IsErrOf result ReadEnd.Fault
        → R.faults reader.new ≡ one_more (R.faults reader.old) }
    ensures same { (IsErrOf result ReadEnd.Fault → ⊥)
        → R.faults reader.new ≡ R.faults reader.old }
    ensures looks { R.looks reader.old reader.new }
{
    match first_gate(reader)? {
        Some(gate) => go_on(reader, nothing_yet(alloc, gate), limit),
        None => Ok(Kept::Foreign { frame: 0 }),
    }
}
