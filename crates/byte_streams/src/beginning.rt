//! Reading the first bytes of a source.

ghost use Rattle.std.specs.Prelude.{◌≡◌, ◌<◌, ◌≤◌, length, Err, IfOk, OnOk};
ghost use Rattle.byte_streams.specs.Beginning.{BeginsWith};
ghost use Rattle.byte_streams.specs.declared.beginning.ReadFault.TheVariants.{CannotRead, NoMemory};

use crate::streams::{IoFault, Source};
use std::alloc::Global;
use std::sync::Wait;

/// How many bytes are read at once.
pub(crate) const ROOM: usize = 4096;

/// Why what a source gives isn't returned.
#[derive(Clone, Copy, Debug)]
pub enum ReadFault {
    /// A read failed. The source counts this.
    CannotRead,
    /// Memory ran out.
    NoMemory,
}

/// Returns the first `limit` bytes of a source, or all up to its end where it has fewer. An interrupted read is tried again.
/// More may be read than is returned; after an error what was read is lost.
///
/// # Errors
///
/// `CannotRead` where a read failed, and `NoMemory` where memory ran out.
pub fn read_beginning<R: Wait, S: Source>(
    rt: &R,
    alloc: Global,
    source: &mut S,
    limit: usize,
) -> Result<Vec<u8>, ReadFault>
    ensures bytes { IfOk result (λ bytes. BeginsWith limit bytes.items (S.supply source.old) (S.supply source.new)) }
    ensures short { IfOk result (λ bytes. length bytes.items ≤ limit) }
    ensures ok { OnOk result ((S.supply source.new).failures ≡ (S.supply source.old).failures) }
    ensures cannot_read { result ≡ Err CannotRead → (S.supply source.old).failures < (S.supply source.new).failures }
    ensures no_memory { result ≡ Err NoMemory → (S.supply source.new).failures ≡ (S.supply source.old).failures }
{
    let mut bytes = Vec::new(alloc);
    let mut room = [0; ROOM];
    for _ in rt.forever() {
        if bytes.len() >= limit {
            bytes.truncate(limit);
            return Ok(bytes);
        }
        match source.read(&mut room) {
            Ok(0) => return Ok(bytes),
            Ok(count) => match bytes.extend_from_slice(&room[..count]) {
                Ok(()) => {}
                Err(_) => return Err(ReadFault::NoMemory),
            },
            Err(IoFault::Failed) => return Err(ReadFault::CannotRead),
            Err(IoFault::Interrupted) => {}
        }
    }
    unreachable!()
}
