//! Frames of a connection: two that were fed the same.
ghost use Rattle.std.specs.Prelude.{◌≡◌, IfOk};

use bytes::BytesMut;
use rq_model::refusal::NoMemory;
use rq_wire::{Answer, Fed, Frames, answer};

/// A piece gives the same requests and the same fault, and leaves the same. Excludes a byte that is lost where frames
/// are cut, requests that are given again, and bytes that are read behind a fault.
pub fn feed(
    first: &mut Frames,
    second: &mut Frames,
    piece: &[u8],
) -> (Result<Fed, NoMemory>, Result<Fed, NoMemory>)
    requires same { first.old ≡ second.old }
    ensures given { IfOk result.0 (λ a. IfOk result.1
        (λ b. (a.requests.items ≡ b.requests.items) × (a.fault ≡ b.fault))) }
    ensures left { IfOk result.0 (λ _. IfOk result.1 (λ _. first.new ≡ second.new)) }
{
    (first.feed(piece), second.feed(piece))
}

/// An answer is written as the same bytes. Excludes a frame without its fields.
pub fn answers(
    told: &Answer,
    first: &mut BytesMut,
    second: &mut BytesMut,
) -> (Result<(), NoMemory>, Result<(), NoMemory>)
    requires same { first.old.items ≡ second.old.items }
    ensures { IfOk result.0 (λ _. IfOk result.1 (λ _. first.new.items ≡ second.new.items)) }
{
    (answer(told, first), answer(told, second))
}
