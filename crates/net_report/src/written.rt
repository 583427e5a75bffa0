//! What is written as one line, and lists of such.

ghost use Rattle.std.specs.Prelude.{◌≡◌, ◌++◌, OnOk, string_bytes};
ghost use Rattle.std.specs.List.{flat_map};

use or_base::NoMemory;

/// What is written as a line of the report.
pub(crate) trait ReportLine {
    ghost use Rattle.std.specs.Prelude.{List, ℕ};

    /// Its line.
    ghost line: { Self → List ℕ };

    /// Appends its line.
    fn write_line(&self, out: &mut String) -> Result<(), NoMemory>
        ensures { OnOk result (string_bytes out.new ≡ string_bytes out.old ++ line self.now) };
}

/// A line for each of these, in order.
pub(crate) fn write_lines<T: ReportLine>(out: &mut String, items: &[T]) -> Result<(), NoMemory>
    ensures { OnOk result (string_bytes out.new ≡ string_bytes out.old ++ flat_map T.line items.now) }
{
    for item in items {
        item.write_line(out)?;
    }
    Ok(())
}
