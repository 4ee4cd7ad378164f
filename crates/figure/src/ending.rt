// Ending a handle.
ghost use Rattle.std.specs.Prelude.{◌<◌};
ghost use Rattle.mount.specs.Mount.{held_of};

use layers::Store;
use mount::MountOver;
use reader::Handle;

// A close is refused only where no handle is held; whoever calls this proves that one is.
pub(crate) fn end<S: Store>(mount: &mut MountOver<S>, handle: Handle)
    requires { 0 < held_of mount.old }
{
    match mount.close(handle) {
        Ok(()) => {}
        Err((_handle, _refusal)) => unreachable!(),
    }
}
