// The mount's own handles: to close one is never refused.
ghost use Rattle.std.specs.Prelude.{◌≡◌, ◌<◌, ◌-◌, Ok, []};
ghost use Rattle.mount.specs.Mount.{Closes, held_of};
ghost use Rattle.reader.specs.Calls.{extent_of};

use layers::Store;
use mount::MountOver;
use reader::Handle;

// Gives a handle back to the mount that holds it.
pub(crate) fn give_back<S: Store>(mount: &mut MountOver<S>, handle: Handle)
    requires { 0 < held_of mount.old }
    ensures step { Closes mount.old (extent_of handle) mount.new }
    ensures held { held_of mount.new ≡ held_of mount.old - 1 }
{
    match mount.close(handle) {
        Ok(()) => {}
        Err(_) => unreachable!(),
    }
}
