// The mount of a card: a cache over the path check over a device.
ghost use Rattle.std.specs.Prelude.{◌≡◌};
ghost use Rattle.calls.specs.Mount.{cached_check, made};
ghost use Rattle.verity.specs.Anchored.{told_by};
ghost use Rattle.mount.specs.Law.{IsLabelOf, LawFrom};
ghost use Rattle.mount.specs.Mount.{device_of, mounted_of};

use crate::mount::MountOver;
use cache::Cache;
use device::Device;
use digest::Digest;
use geometry::Label;
use layers::Store;
use reader::State;
use verity::Verity;

/// A mount over a cache over the path check over a device.
pub type Mount<H, D> = MountOver<Cache<Verity<H, D>>>;

impl<H: Digest + Drop, D: Device> Mount<H, D> {
    /// A mount of the card that this label tells of. A label that is not good makes every call a refusal.
    pub fn new(digest: H, label: &Label<'_>, device: D) -> Mount<H, D>
        ensures made { mounted_of result ≡ made (cached_check D.Refusal) (told_by H.NUMBER H.LEN H.meaning label.now) }
        ensures device { device_of result ≡ device }
        ensures store { ⟦<Cache<Verity<H, D>> as Store>⟧.rule ≡ cached_check D.Refusal }
        ensures law { (p : _) → IsLabelOf H.NUMBER H.LEN H.meaning p label.now → LawFrom (cached_check D.Refusal) D.meaning D.moves p (mounted_of result) (device_of result) }
    {
        MountOver {
            store: Cache::new(Verity::new(digest, label, device)),
            state: State::new(),
        }
    }
}
