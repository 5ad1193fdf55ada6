ghost use Rattle.std.specs.Prelude.{◌≡◌, ◌≤◌, IfOk};
ghost use Rattle.std.specs.String.{string_bytes};
ghost use Rattle.command_steps.specs.Commands.{part_name};
ghost use Rattle.command_steps.specs.Faults.{fault_of};
ghost use Rattle.command_steps.specs.FileWalks.{GivesBytes, GivesTried, StoresFile};
ghost use Rattle.command_steps.specs.States.{shelf_state};

use crate::failure::Failure;
use itoa::Buffer;
use outside::{LoadFault, Shelf, StoreFault};
use std::alloc::Global;
use vert_base::Want;

/// Loads the file of that name, which must be there. One that is longer than `limit` fails by `too_long`.
///
/// The failure's name is taken before the load, so that a load that fails needs no memory to say so.
pub fn load_file<H: Shelf>(
    alloc: Global,
    shelf: &mut H,
    name: &str,
    limit: u64,
    too_long: Failure,
) -> Result<Vec<u8>, Failure>
    ensures bytes { GivesBytes (shelf_state H.files H.loads H.stores shelf.old)
        (shelf_state H.files H.loads H.stores shelf.new) name.now limit (fault_of too_long) result }
    ensures later { H.loads shelf.old ≤ H.loads shelf.new }
{
    let unread = String::from_str(alloc, name)?;
    match shelf.load(alloc, name, limit) {
        Ok(bytes) => Ok(bytes),
        Err(LoadFault::TooLong) => Err(too_long),
        Err(LoadFault::Want) => Err(Failure::Memory),
        Err(LoadFault::Failed) => Err(Failure::Load(unread)),
        Err(LoadFault::Missing) => Err(Failure::Load(unread)),
    }
}

/// Loads the file of that name, where there is one that isn't longer than `limit`.
pub fn try_file<H: Shelf>(
    alloc: Global,
    shelf: &mut H,
    name: &str,
    limit: u64,
) -> Result<Option<Vec<u8>>, Failure>
    ensures tried { GivesTried (shelf_state H.files H.loads H.stores shelf.old)
        (shelf_state H.files H.loads H.stores shelf.new) name.now limit result }
    ensures later { H.loads shelf.old ≤ H.loads shelf.new }
{
    let unread = String::from_str(alloc, name)?;
    match shelf.load(alloc, name, limit) {
        Ok(bytes) => Ok(Some(bytes)),
        Err(LoadFault::Missing) => Ok(None),
        Err(LoadFault::TooLong) => Ok(None),
        Err(LoadFault::Want) => Err(Failure::Memory),
        Err(LoadFault::Failed) => Err(Failure::Load(unread)),
    }
}

/// Stores the bytes under the name.
pub fn store_file<H: Shelf>(shelf: &mut H, name: &str, bytes: &[u8]) -> Result<(), Failure>
    ensures stored { StoresFile name.now bytes.now
        (shelf_state H.files H.loads H.stores shelf.old)
        (shelf_state H.files H.loads H.stores shelf.new) result }
    ensures loads { H.loads shelf.new ≡ H.loads shelf.old }
{
    match shelf.store(name, bytes) {
        Ok(()) => Ok(()),
        Err(StoreFault::Failed) => Err(Failure::Write),
        Err(StoreFault::Want) => Err(Failure::Memory),
    }
}

/// The name of one of several files: a dot and a number stand behind what they share.
pub fn numbered_name(alloc: Global, prefix: &str, number: u8) -> Result<String, Want>
    ensures { IfOk result (λ name. string_bytes name ≡ part_name prefix.now number) }
{
    let mut name = String::from_str(alloc, prefix)?;
    let mut digits = Buffer::new();
    name.push_str(".")?;
    name.push_str(digits.format(number))?;
    Ok(name)
}
