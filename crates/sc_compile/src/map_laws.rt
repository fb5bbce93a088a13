//! What a map comes to over a table that does not change.
ghost use Rattle.std.specs.Prelude.{◌≡◌, List, None, Some, ℕ};
ghost use Rattle.sc_compile.specs.Tools.{detected_of};
ghost use Rattle.sc_compile.specs.declared.tool.Detected.{Detected};
ghost use Rattle.sc_compile.specs.declared.tool.Tool.{Tool};
ghost use Rattle.sc_compile.specs.Kept.{AreDetected, Informs, Kept, entry_at};

/// Over a table that tells its tools, what is kept changes no answer: a map that keeps nothing agrees with each table, one that
/// agrees with it answers what the table does, and agrees with it afterwards.
pub fn kept_as_detected()
    ensures begins { (tools : List Tool) (kept : Kept) → ((path : List ℕ) → entry_at kept path ≡ None) → AreDetected tools kept }
    ensures answers { (tools : List Tool) (path : List ℕ) (found : Detected) (old new : Kept) → AreDetected tools old → Informs (Some tools) path found old new → found ≡ detected_of tools path }
    ensures agrees { (tools : List Tool) (path : List ℕ) (found : Detected) (old new : Kept) → AreDetected tools old → Informs (Some tools) path found old new → AreDetected tools new }
{}
