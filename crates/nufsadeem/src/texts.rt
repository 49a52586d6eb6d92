// Circuits as texts for C: read out of a text, and written as one.
ghost use Rattle.std.specs.Prelude.{◌≡◌, [], ◌∷◌};
ghost use Rattle.real_export.specs.Promises.{export_tells, export_leaves};
ghost use Rattle.real_import.specs.Promises.{import_tells, import_leaves};
ghost use Rattle.answers.specs.Fields.{fields};

use answers::Count;
use answers::texts::Circuit;

// The circuit of a text in the .real form, into the front of a list.
#[unsafe(no_mangle)]
pub extern "C" fn nuf_import_real(text: &[u8], gates: &mut [u32]) -> Circuit
    ensures { ((result.number ∷ result.place ∷ result.lines ∷ result.gates ∷ []) ≡ fields 2 (import_tells text.now gates.old))
        × (gates.new ≡ import_leaves text.now gates.old) }
{
    real_import::import(text, gates).into()
}

// A circuit as a text in the .real form, into the front of some bytes.
#[unsafe(no_mangle)]
pub extern "C" fn nuf_export_real(lines: u32, gates: &[u32], out: &mut [u8]) -> Count
    ensures { ((result.number ∷ result.place ∷ result.count ∷ []) ≡ fields 1 (export_tells lines gates.now out.old))
        × (out.new ≡ export_leaves lines gates.now out.old) }
{
    real_export::export(lines, gates, out).into()
}
