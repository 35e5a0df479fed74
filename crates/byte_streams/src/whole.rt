//! Reading all bytes of a source.

ghost use Rattle.std.specs.Prelude.{◌≡◌, ◌<◌, true, Err, IfOk, OnOk};
ghost use Rattle.byte_streams.specs.Streams.{IsReadOf};
ghost use Rattle.byte_streams.specs.declared.beginning.ReadFault.TheVariants.{CannotRead, NoMemory};

use crate::beginning::{ROOM, ReadFault};
use crate::streams::{IoFault, Source};
use std::alloc::Global;
use std::sync::Wait;

/// Returns all bytes of a source, up to its end. An interrupted read is tried again. After an error some bytes were read
/// and are lost.
///
/// # Errors
///
/// `CannotRead` where a read failed, and `NoMemory` where memory ran out.
pub fn read_all<R: Wait, S: Source>(
    rt: &R,
    alloc: Global,
    source: &mut S,
) -> Result<Vec<u8>, ReadFault>
    ensures bytes { IfOk result (λ bytes. IsReadOf bytes.items (S.supply source.old) (S.supply source.new)) }
    ensures ended { OnOk result ((S.supply source.new).ended ≡ true) }
    ensures ok { OnOk result ((S.supply source.new).failures ≡ (S.supply source.old).failures) }
    ensures cannot_read { result ≡ Err CannotRead → (S.supply source.old).failures < (S.supply source.new).failures }
    ensures no_memory { result ≡ Err NoMemory → (S.supply source.new).failures ≡ (S.supply source.old).failures }
{
    let mut bytes = Vec::new(alloc);
    let mut room = [0; ROOM];
    for _ in rt.forever() {
        match source.read(&mut room) {
            Ok(0) => return Ok(bytes),
            Ok(count) => match bytes.extend_from_slice(&room[..count]) {
                Ok(()) => {}
                Err(_) => return Err(ReadFault::NoMemory),
            },
            Err(IoFault::Failed) => return Err(ReadFault::CannotRead),
            Err(IoFault::Interrupted) => {}
        }
    }
    unreachable!()
}
