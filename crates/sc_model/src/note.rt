//! Which lines of a compiler's standard error are notifications.

ghost use Rattle.std.specs.Prelude.{◌≡◌};
ghost use Rattle.sc_model.specs.Notes.{is_note};

/// Whether a line of standard error, without its line feed, is a notification: it begins with `note:`.
pub fn is_notification(line: &[u8]) -> bool
    ensures { result ≡ is_note line.now }
{
    line.starts_with(b"note:")
}
