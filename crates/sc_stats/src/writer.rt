ghost use Rattle.std.specs.Prelude.{◌≡◌, ℕ, List};
ghost use Rattle.sc_stats.specs.Writers.{WritesEach};

use sc_entry::Text;

/// Takes printed statistics, a line at a time. A line has no line feed at its end.
pub trait ServerStatsWriter {
    /// What writing a line does.
    ghost writes: { Self → List ℕ → Self → Type 0 };

    fn write(&mut self, text: &str)
        ensures { writes self.old text.now self.new };
}

/// Prints on standard output. What that refuses is lost.
#[derive(Drop)]
pub struct StdoutServerStatsWriter<'a, R: Print> {
    pub runtime: &'a R,
}

impl<'a, R: Print> ServerStatsWriter for StdoutServerStatsWriter<'a, R> {
    ghost writes = { λ old text new. new ≡ old };

    fn write(&mut self, text: &str) {
        let _lost = self.runtime.println(text);
    }
}

/// Writes each line, in order.
pub(crate) fn write_each<W: ServerStatsWriter>(writer: &mut W, lines: &[Text])
    ensures { WritesEach W.writes writer.old lines.now writer.new }
{
    for line in lines {
        writer.write(line.as_str());
    }
}
