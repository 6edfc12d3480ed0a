//! Laws of the definitions that the contracts cite.

ghost use Rattle.std.specs.Prelude.{◌≡◌, Ok};
ghost use Rattle.pub_set.specs.declared.objects.Object.{Object};
ghost use Rattle.pub_set.specs.declared.steps.Change.{Change};
ghost use Rattle.rrdp_text.specs.Files.{File, IsSnapshot, snapshot_spelled, IsDelta, delta_spelled};
ghost use Rattle.rrdp_text.specs.Template.{snapshot_in, delta_in};

/// The text of what a snapshot or a delta can say is read as just that.
pub fn texts_are_read_back()
    ensures snapshots { (v : File Object) → IsSnapshot v → snapshot_in (snapshot_spelled v) ≡ Ok v }
    ensures deltas { (v : File Change) → IsDelta v → delta_in (delta_spelled v) ≡ Ok v }
{}
