ghost use Rattle.std.specs.Prelude.{◌≡◌, ◌<◌, ◌⊎◌, ℕ, List, length};
ghost use Rattle.sk_base.specs.declared.Sketch.{Sketch};
ghost use Rattle.sk_base.specs.SoundSketch.{IsSoundSketch};
ghost use Rattle.sk_lines.specs.declared.Code.{Code};
ghost use Rattle.sk_lang.specs.Canonical.{canonical, canonical_2};
ghost use Rattle.sk_lang.specs.declared.front.Front.{Front};
ghost use Rattle.sk_lang.specs.Front.{ReadsFront, RefusesFront};
ghost use Rattle.sk_lang.specs.Reading.{Reads, Refuses};
ghost use Rattle.sk_lang.specs.Renumbered.{renumbered};

/// Every text is read or refused, and not both, with one sketch or one refusal.
pub fn one_answer()
    ensures some { (bytes : List ℕ) → ((s : Sketch) × Reads bytes s) ⊎ ((n : ℕ) × ((code : Code) × Refuses bytes n code)) }
    ensures one_sketch { (bytes : List ℕ) (s t : Sketch) → Reads bytes s → Reads bytes t → s ≡ t }
    ensures one_refusal { (bytes : List ℕ) (n m : ℕ) (c d : Code) → Refuses bytes n c → Refuses bytes m d → (n ≡ m) × (c ≡ d) }
    ensures not_both { (bytes : List ℕ) (s : Sketch) (n : ℕ) (code : Code) → Reads bytes s → Refuses bytes n code → ⊥ }
{}

/// A text has one front with a sketch or one refusal of it, and not both.
pub fn one_front()
    ensures some { (bytes : List ℕ) → ((f : Front) × ReadsFront bytes f) ⊎ ((n : ℕ) × ((code : Code) × RefusesFront bytes n code)) }
    ensures one_front { (bytes : List ℕ) (f g : Front) → ReadsFront bytes f → ReadsFront bytes g → f ≡ g }
    ensures one_refusal { (bytes : List ℕ) (n m : ℕ) (c d : Code) → RefusesFront bytes n c → RefusesFront bytes m d → (n ≡ m) × (c ≡ d) }
    ensures not_both { (bytes : List ℕ) (f : Front) (n : ℕ) (code : Code) → ReadsFront bytes f → RefusesFront bytes n code → ⊥ }
{}

/// What a text is read as is a sound sketch with an element, numbered from 1 in the order of its lines.
pub fn readable_is_sound()
    ensures sound { (bytes : List ℕ) (s : Sketch) → Reads bytes s → IsSoundSketch s }
    ensures some { (bytes : List ℕ) (s : Sketch) → Reads bytes s → 0 < length s.elements }
    ensures numbered { (bytes : List ℕ) (s : Sketch) → Reads bytes s → renumbered s ≡ s }
{}

/// Both canonical texts of a sound sketch that has an element read as that sketch, numbered anew from 1.
pub fn written_reads_back()
    ensures canonical { (s : Sketch) → IsSoundSketch s → 0 < length s.elements → Reads (canonical s) (renumbered s) }
    ensures canonical_2 { (s : Sketch) → IsSoundSketch s → 0 < length s.elements → Reads (canonical_2 s) (renumbered s) }
{}
