ghost use Rattle.std.specs.Prelude.{◌≡◌, [], ◌∷◌, ◌++◌, decimal, OnOk};
ghost use Rattle.json.specs.Token.{key, string, number, boolean};
ghost use Rattle.or_json.specs.Appended.{Appends};

use json::Writer;
use or_base::NoMemory;

/// Appends a member that is a text.
pub fn write_text(out: &mut Writer, name: &str, text: &str) -> Result<(), NoMemory>
    ensures { OnOk result (Appends out.old out.new (key name.now ∷ string text.now ∷ [])) }
{
    out.key(name)?;
    out.string(text)?;
    Ok(())
}

/// Appends a member that is a number.
pub fn write_number(out: &mut Writer, name: &str, n: u32) -> Result<(), NoMemory>
    ensures { OnOk result (Appends out.old out.new (key name.now ∷ number (decimal n) ∷ [])) }
{
    out.key(name)?;
    out.u64(u64::from(n))?;
    Ok(())
}

/// Appends a member that is `true` or `false`.
pub fn write_flag(out: &mut Writer, name: &str, flag: bool) -> Result<(), NoMemory>
    ensures { OnOk result (Appends out.old out.new (key name.now ∷ boolean flag ∷ [])) }
{
    out.key(name)?;
    out.boolean(flag)?;
    Ok(())
}
