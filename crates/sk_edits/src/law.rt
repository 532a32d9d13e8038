// Laws of edits.
ghost use Rattle.sk_base.specs.declared.ConId.{ConId};
ghost use Rattle.sk_base.specs.declared.Elem.{Elem};
ghost use Rattle.sk_base.specs.declared.Ratio.{Ratio};
ghost use Rattle.sk_base.specs.declared.Sketch.{Sketch};
ghost use Rattle.sk_base.specs.declared.Um.{Um};
ghost use Rattle.sk_base.specs.SoundSketch.{IsSoundSketch, IsLength, IsSoundRatio};
ghost use Rattle.sk_edits.specs.declared.edit.Edit.TheVariants as an_edit;
ghost use Rattle.sk_edits.specs.Edits.{applied};
ghost use Rattle.sk_edits.specs.Making.{IsUnused};

/// Edits other than lines leave a sound sketch sound.
pub fn stays_sound()
    ensures dropped { (s : Sketch) (k : ConId) → IsSoundSketch s → IsSoundSketch (applied (an_edit.Dropped k) s) }
    ensures length { (s : Sketch) (k : ConId) (len : Um) → IsLength len → IsSoundSketch s → IsSoundSketch (applied (an_edit.Length k len) s) }
    ensures turned { (s : Sketch) (k : ConId) (ratio : Ratio) → IsSoundRatio ratio → IsSoundSketch s → IsSoundSketch (applied (an_edit.Turned k ratio) s) }
    ensures erased { (s : Sketch) (x : Elem) → IsUnused s x → IsSoundSketch s → IsSoundSketch (applied (an_edit.Erased x) s) }
{}
