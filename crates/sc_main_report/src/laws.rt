//! What ties the report to the daemon's theorem.
ghost use Rattle.std.specs.Prelude.{◌≡◌, ℕ, List, reverse};
ghost use Rattle.sc_model.specs.Trace.{about, sent};
ghost use Rattle.sc_model.specs.declared.event.Event.{Event};
ghost use Rattle.sc_main_report.specs.Report.{replies_to};

/// The replies that a report prints of a connection are those that it was sent by the daemon's trace, which has the
/// newest event first.
pub fn printed_replies_are_sent()
    ensures { (c : ℕ) (events : List Event) → replies_to c events ≡ sent (about c (reverse events)) }
{}
