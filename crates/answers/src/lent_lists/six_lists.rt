ghost use Rattle.answers.specs.lent_lists.LentText.{Few};

// The six lists of a lent plane.
#[derive(Clone, Copy)]
pub struct Lists<'a> {
    pub rows: &'a [u8],
    pub kinds: &'a [u8],
    pub regions: &'a [u8],
    pub offsets: &'a [u8],
    pub sizes: &'a [u8],
    pub bytes: &'a [u8],
    pub ghost few: { Few (record { rows = rows.now; kinds = kinds.now; regions = regions.now; offsets = offsets.now; sizes = sizes.now; bytes = bytes.now }) },
}
