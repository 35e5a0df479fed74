//! Writing all of some bytes to a sink.
ghost use Rattle.std.specs.Prelude.{◌≡◌, ◌<◌, map, MatchResult};
ghost use Rattle.std.specs.List.{concat};
ghost use Rattle.byte_streams.specs.Streams.{Appends, AppendsPart, WritesOrFails};

use crate::streams::{IoFault, Sink};
use std::sync::Wait;

/// The output failed.
#[derive(Clone, Copy)]
pub struct WriteFailed;

/// Writes texts one after another. Where the output fails, a prefix of their bytes was written, and the rest is dropped.
pub fn say<O: Sink>(rt: &impl Wait, output: &mut O, texts: &[&str])
    ensures { WritesOrFails (concat (map (λ text. text.now) texts.entry.now))
        (O.output output.old) (O.output output.new) }
{
    for text in texts {
        match write_all(rt, output, text.as_bytes()) {
            Ok(()) => {}
            Err(WriteFailed) => return,
        }
    }
}

/// Writes all bytes. An interrupted write is tried again.
///
/// # Errors
///
/// `WriteFailed`, where the output failed. A prefix of the bytes was written.
pub fn write_all<O: Sink>(rt: &impl Wait, output: &mut O, bytes: &[u8]) -> Result<(), WriteFailed>
    ensures written { MatchResult result
        (λ _. Appends (O.output output.old).written (O.output output.new).written bytes.now)
        (λ _. AppendsPart (O.output output.old).written (O.output output.new).written bytes.now) }
    ensures count { MatchResult result
        (λ _. (O.output output.new).failures ≡ (O.output output.old).failures)
        (λ _. (O.output output.old).failures < (O.output output.new).failures) }
{
    let mut rest = bytes;
    for _ in rt.forever() {
        if rest.is_empty() {
            return Ok(());
        }
        match output.write(rest) {
            Ok(0) => return Err(WriteFailed),
            Ok(count) => rest = rest.split_at(count).1,
            Err(IoFault::Failed) => return Err(WriteFailed),
            Err(IoFault::Interrupted) => {}
        }
    }
    unreachable!()
}
