// Ending a handle of a mount's own.
ghost use Rattle.std.specs.Prelude.{◌≡◌, ◌<◌, ◌-◌};
ghost use Rattle.mount.specs.Mount.{held_of};

use layers::Store;
use mount::MountOver;
use reader::Handle;

// A close is refused only where no handle is held.
pub(crate) fn end<S: Store>(mount: &mut MountOver<S>, handle: Handle)
    requires { 0 < held_of mount.old }
    ensures { held_of mount.new ≡ held_of mount.old - 1 }
{
    match mount.close(handle) {
        Ok(()) => {}
        Err((_handle, _refusal)) => unreachable!(),
    }
}
