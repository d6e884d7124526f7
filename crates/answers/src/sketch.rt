// The parts of a drawing as the judge of the Rust prints them: layers, regions and the name.
ghost use Rattle.std.specs.Prelude.{[], ◌∷◌, ◌++◌, ◌+◌, ◌*◌, ◌≤◌, ◌<◌, length};
ghost use Rattle.arrayvec.specs.ArrayVec.{array_vec_len};
ghost use Rattle.model.specs.Layers.{picture_of};
ghost use Rattle.model.specs.Limits.{canvas_columns};
ghost use Rattle.cells.specs.rects.Rects.{rect_at, rects_in};
ghost use Rattle.cells.specs.Spans.{length_at, text_at};
ghost use Rattle.cells.specs.Slices.{texts_of};
ghost use Rattle.characters.specs.utf8.Utf8.{encode};
ghost use Rattle.print.specs.Decimal.{Written};
ghost use Rattle.print.specs.Lines.{line_feed};
ghost use Rattle.answers.specs.sketch.Drawings.{row_to, layer_lines, layers_lines, layers_bytes, row_bytes, number_word, rect_words, region_line, counted_lines, region_bytes, name_line, name_bytes};
ghost use Rattle.answers.specs.sketch.Printable.{OnCanvas, SameSize, Few, Regions};

use arrayvec::ArrayVec;
use cells::rects::list::Rects;
use cells::texts::Texts;
use model::layer::Layer;

// A character in UTF-8.
fn put_code<const N: usize>(out: &mut ArrayVec<u8, N>, c: u32)
    requires { array_vec_len out.old + 4 ≤ N }
    ensures { Written out.old.items out.new.items (encode c) 4 }
{
    // A slice and a count: `encoding` writes at a place of a slice. Pushed one by one: so few bytes are not worth a call that copies.
    let mut code = [0u8; 4];
    let n = characters::encoding::put_code(&mut code, 0, c);
    let bytes = &code[..n];
    for &b in bytes {
        out.push(b);
    }
}

// Row y of a layer, and a line feed.
fn put_row<const N: usize>(out: &mut ArrayVec<u8, N>, layer: Layer, y: usize)
    requires { (array_vec_len out.old + row_bytes ≤ N) × (y < layer.height) × (layer.width ≤ canvas_columns) }
    ensures { Written out.old.items out.new.items (row_to (picture_of layer.entry) y layer.entry.width ++ (line_feed ∷ [])) row_bytes }
{
    for x in 0..layer.width {
        put_code(out, layer.codes[y * layer.width + x]);
    }
    out.push(b'\n');
}

// The rows of a layer behind its title.
fn put_layer<const N: usize>(out: &mut ArrayVec<u8, N>, title: &[u8], layer: Layer)
    requires { (array_vec_len out.old + length title.now + row_bytes * layer.height ≤ N) × (layer.width ≤ canvas_columns) }
    ensures { Written out.old.items out.new.items (layer_lines title.now (picture_of layer.entry) layer.entry.width layer.entry.height) (length title.now + row_bytes * layer.entry.height) }
{
    print::put_word(out, title);
    for y in 0..layer.height {
        put_row(out, layer, y);
    }
}

// The four layers.
pub(crate) fn put_layers<const N: usize>(
    out: &mut ArrayVec<u8, N>,
    text: Layer,
    thins: Layer,
    bodies: Layer,
    grid: Layer,
)
    requires { (array_vec_len out.old + layers_bytes ≤ N) × OnCanvas text × SameSize text thins × SameSize text bodies × SameSize text grid }
    ensures { Written out.old.items out.new.items (layers_lines (picture_of text.entry) (picture_of thins.entry) (picture_of bodies.entry) (picture_of grid.entry) text.entry.width text.entry.height) layers_bytes }
{
    put_layer(out, b"TEXT\n", text);
    put_layer(out, b"THIN\n", thins);
    put_layer(out, b"BODY\n", bodies);
    put_layer(out, b"GRID\n", grid);
}

// A number and a blank.
fn put_spaced<const N: usize>(out: &mut ArrayVec<u8, N>, n: usize)
    requires { array_vec_len out.old + 21 ≤ N }
    ensures { Written out.old.items out.new.items (number_word n) 21 }
{
    print::put_number(out, n as u64);
    out.push(b' ');
}

// Rect k, with a blank behind each number.
fn put_rect<const N: usize>(out: &mut ArrayVec<u8, N>, rects: Rects, k: usize)
    requires { (array_vec_len out.old + 84 ≤ N) × (k < rects.count) }
    ensures { Written out.old.items out.new.items (rect_words (rect_at rects.entry.numbers.now k)) 84 }
{
    let r = rects.at(k);
    put_spaced(out, r.left);
    put_spaced(out, r.top);
    put_spaced(out, r.right);
    put_spaced(out, r.bottom);
}

// Text k, and a line feed.
fn put_text<const N: usize>(out: &mut ArrayVec<u8, N>, texts: Texts, k: usize)
    requires { (array_vec_len out.old + length_at texts.spans.now k + 1 ≤ N) × (k < texts.count) }
    ensures { Written out.old.items out.new.items (text_at texts.entry.bytes.now texts.entry.spans.now k ++ (line_feed ∷ [])) (length_at texts.entry.spans.now k + 1) }
{
    print::put_word(out, texts.text(k));
    out.push(b'\n');
}

// Region k: its rect and its text.
fn put_region<const N: usize>(out: &mut ArrayVec<u8, N>, rects: Rects, texts: Texts, k: usize)
    requires { (array_vec_len out.old + 85 + length_at texts.spans.now k ≤ N) × (k < rects.count) × (k < texts.count) }
    ensures { Written out.old.items out.new.items (region_line (rect_at rects.entry.numbers.now k) (text_at texts.entry.bytes.now texts.entry.spans.now k)) (85 + length_at texts.entry.spans.now k) }
{
    put_rect(out, rects, k);
    put_text(out, texts, k);
}

// The regions behind their count.
pub(crate) fn put_regions<const N: usize>(out: &mut ArrayVec<u8, N>, rects: Rects, texts: Texts)
    requires { (array_vec_len out.old + region_bytes ≤ N) × Regions rects texts }
    ensures { Written out.old.items out.new.items (counted_lines (rects_in rects.entry) (texts_of texts.entry)) region_bytes }
{
    print::put_count(out, b"regions ", texts.count);
    for k in 0..texts.count {
        put_region(out, rects, texts, k);
    }
}

// The name of a table, which is the text of its first region if `named`: that text stands in `texts` either way, as `tables` says.
pub fn put_name<const N: usize>(out: &mut ArrayVec<u8, N>, texts: Texts, named: bool)
    requires { (array_vec_len out.old + name_bytes ≤ N) × Few texts }
    ensures { Written out.old.items out.new.items (name_line named (texts_of texts.entry)) name_bytes }
{
    if !named || texts.count == 0 {
        print::put_word(out, b"no name\n");
        return;
    }
    print::put_word(out, b"name ");
    put_text(out, texts, 0);
}
