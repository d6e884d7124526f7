// The texts of an upright sheet as slots of a work slice, three numbers each, in record order.
ghost use Rattle.std.specs.Prelude.{List, ℕ, [], ◌∷◌, ◌≡◌, ◌+◌, ◌-◌, ◌*◌, ◌≤◌, ◌<◌, length};
ghost use Rattle.lists.specs.Choose.{choose};
ghost use Rattle.model.specs.Limits.{text_bytes};
ghost use Rattle.cells.specs.Slices.{plane_of, text_of};
ghost use Rattle.record.specs.Slots.{slot_limit};
ghost use Rattle.clauses.specs.Spelled.{join_run, input_text, label_text, name_text, output_text, note_texts, entry_texts, spelled};
ghost use Rattle.clauses.specs.Told.{ShapeFits};
ghost use Rattle.recognizer.specs.slot_runs.Spelt.{Spelt, HasRoom, Appended};
ghost use Rattle.recognizer.specs.slots.ShapedTexts.{bytes_of, on_sheet};
ghost use Rattle.recognizer.specs.slots.Steps.{Steps};

use crate::slot_runs::{Filled, Slots};
use crate::slots::shaped_sheet::ShapedSheet;
use cells::text_plane::TextPlane;
use clauses::Shape;

mod shaped_sheet;

// Input i: its expression and its allowed values.
fn put_input(shaped: ShapedSheet, out: &mut Slots, i: usize)
    requires { HasRoom out.old 2 }
    ensures { Appended (bytes_of shaped.entry) out.old out.new (on_sheet input_text shaped.entry i) }
{
    let s = shaped.shape;
    let p = crate::slot_runs::part_at(shaped.sheet, 0, i);
    out.put_part(p);
    if s.allowed {
        let v = crate::slot_runs::part_at(shaped.sheet, s.height.saturating_sub(1), i);
        out.put_optional(v);
    } else {
        out.put_absent();
    }
}

// The texts of n steps, as many for each.
fn put_each<F: Fn(ShapedSheet, &mut Slots, usize)>(
    shaped: ShapedSheet,
    out: &mut Slots,
    n: usize,
    put: F,
)
    ghost steps: { Steps }
    requires room { HasRoom out.old (n * steps.size) }
    requires ready { (s : _) (i : ℕ) → i < n → HasRoom s.now steps.size → F.pre put shaped s i }
    requires puts { (s : _) (i : ℕ) (t : _) → i < n → F.post put shaped s i tt t → Appended (bytes_of shaped) s.now t.now (steps.texts i) }
    ensures { Appended (bytes_of shaped.entry) out.old out.new (join_run steps.texts 0 n) }
{
    for i in 0..n {
        put(shaped, out, i);
    }
}

// All inputs.
fn put_inputs(shaped: ShapedSheet, out: &mut Slots)
    requires { HasRoom out.old (2 * shaped.shape.inputs) }
    ensures { Appended (bytes_of shaped.entry) out.old out.new (join_run (on_sheet input_text shaped.entry) 0 shaped.entry.shape.inputs) }
{
    put_each(shaped, out, shaped.shape.inputs, put_input);
}

// The label of the outputs.
fn put_label(shaped: ShapedSheet, out: &mut Slots)
    requires { HasRoom out.old 1 }
    ensures { Appended (bytes_of shaped.entry) out.old out.new (on_sheet label_text shaped.entry ∷ []) }
{
    let s = shaped.shape;
    if s.layout.labelled {
        let label = crate::slot_runs::part_at(shaped.sheet, 0, s.inputs + 1);
        out.put_optional(label);
    } else {
        out.put_absent();
    }
}

// The row of the component names: above the allowed values, where there are any.
fn names_row(s: Shape) -> usize
    ensures { result ≡ choose s.layout.valued (s.height - 2) (s.height - 1) }
{
    if s.layout.valued {
        return s.height.saturating_sub(2);
    }
    s.height.saturating_sub(1)
}

// The component name of output j.
fn put_name(shaped: ShapedSheet, out: &mut Slots, j: usize)
    requires { HasRoom out.old 1 × (j < shaped.shape.outputs) }
    ensures { Appended (bytes_of shaped.entry) out.old out.new (on_sheet name_text shaped.entry j ∷ []) }
{
    let s = shaped.shape;
    if s.layout.named {
        let x = s.inputs + 1 + j;
        let p = crate::slot_runs::part_at(shaped.sheet, names_row(s), x);
        out.put_optional(p);
    } else {
        put_label(shaped, out);
    }
}

// Output j: its component name, its allowed values and its default.
fn put_output(shaped: ShapedSheet, out: &mut Slots, j: usize)
    requires { HasRoom out.old 3 × (j < shaped.shape.outputs) }
    ensures { Appended (bytes_of shaped.entry) out.old out.new (on_sheet output_text shaped.entry j) }
{
    put_name(shaped, out, j);
    let s = shaped.shape;
    if s.layout.valued {
        let p = crate::slot_runs::part_at(
            shaped.sheet,
            s.height.saturating_sub(1),
            s.inputs + 1 + j,
        );
        out.put_values(shaped.sheet.texts.bytes, p);
    } else {
        out.put_no_values();
    }
}

// All outputs.
fn put_outputs(shaped: ShapedSheet, out: &mut Slots)
    requires { HasRoom out.old (3 * shaped.shape.outputs) }
    ensures { Appended (bytes_of shaped.entry) out.old out.new (join_run (on_sheet output_text shaped.entry) 0 shaped.entry.shape.outputs) }
{
    put_each(shaped, out, shaped.shape.outputs, put_output);
}

// The annotation texts of row y.
fn put_notes(shaped: ShapedSheet, out: &mut Slots, y: usize)
    requires { HasRoom out.old shaped.shape.notes.count }
    ensures { Appended (bytes_of shaped.entry) out.old out.new (on_sheet note_texts shaped.entry y) }
{
    let n = shaped.shape.notes;
    crate::slot_runs::put_row(shaped.sheet, out, y, n.col, n.count);
}

// Rule r: its input, output and annotation entries.
fn put_rule(shaped: ShapedSheet, out: &mut Slots, r: usize)
    requires { HasRoom out.old (shaped.shape.inputs + shaped.shape.outputs + shaped.shape.notes.count) × (r < shaped.rules) }
    ensures { Appended (bytes_of shaped.entry) out.old out.new (on_sheet entry_texts shaped.entry r) }
{
    let s = shaped.shape;
    let y = s.height + 1 + r;
    crate::slot_runs::put_row(shaped.sheet, out, y, 0, s.inputs);
    crate::slot_runs::put_row(shaped.sheet, out, y, s.inputs + 1, s.outputs);
    put_notes(shaped, out, s.notes.row + r);
}

// All rules.
fn put_rules(shaped: ShapedSheet, out: &mut Slots)
    requires { HasRoom out.old (shaped.rules * (shaped.shape.inputs + shaped.shape.outputs + shaped.shape.notes.count)) }
    ensures { Appended (bytes_of shaped.entry) out.old out.new (join_run (on_sheet entry_texts shaped.entry) 0 shaped.entry.rules) }
{
    put_each(shaped, out, shaped.rules, put_rule);
}

// The texts of a sheet of a known shape, from slot 1 on: the name's slot is left to the caller.
pub fn fill(sheet: TextPlane, slots: &mut [u32], shape: Shape, rules: usize) -> Filled
    requires { (length sheet.texts.bytes.now ≤ text_bytes) × ShapeFits shape sheet.plane.rows rules × (3 * slot_limit ≤ length slots.old) }
    ensures { Spelt sheet.entry.texts.bytes.now slots.old slots.new (record { slot = 1; bytes = 0 }) result (spelled (text_of sheet.entry.texts) (plane_of sheet.entry.plane) shape rules) }
{
    let shaped = ShapedSheet {
        sheet,
        shape,
        rules,
    };
    let mut out = Slots {
        numbers: slots,
        filled: Filled { slot: 1, bytes: 0 },
    };
    put_label(shaped, &mut out);
    put_inputs(shaped, &mut out);
    put_outputs(shaped, &mut out);
    put_notes(shaped, &mut out, 0);
    put_rules(shaped, &mut out);
    out.filled
}
