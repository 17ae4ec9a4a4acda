ghost use Rattle.std.specs.Prelude.{◌≡◌, map, option_map, option_copied};
ghost use Rattle.bmp_specs.specs.Registries.{first_row};

use bmp_specs::Shape;

/// A row of a table. A table is generic in its rows, since a proof can't see through references that
/// stand in an array of any length; each table of this crate has `CodeRow`s.
pub trait Row {
    ghost use Rattle.bmp_specs.specs.Registries.{CodeRowValue};

    ghost value: { Self → CodeRowValue };

    /// The code.
    fn code(&self) -> u16
        ensures { result ≡ (value self.now).code };

    /// The shape of the value after the code.
    fn shape(&self) -> Shape
        ensures { result ≡ (value self.now).shape };

    /// The name that replies have for the code.
    fn name(&self) -> &'static str
        ensures { result.now ≡ (value self.now).name };
}

/// One code of a registry.
#[derive(Clone, Copy, Debug)]
pub struct CodeRow {
    /// The code.
    pub code: u16,

    /// The shape of the value after the code.
    pub shape: Shape,

    /// The name that replies have for the code.
    pub name: &'static str,
}

impl Row for CodeRow {
    ghost use Rattle.bmp_specs.specs.Registries.{row};

    ghost value = { λ r. row r.code r.shape r.name.now };

    fn code(&self) -> u16 {
        self.code
    }

    fn shape(&self) -> Shape {
        self.shape
    }

    fn name(&self) -> &'static str {
        self.name
    }
}

// The first row with the code.
fn first<R: Row>(rows: &[R], code: u16) -> Option<&R>
    ensures { option_map (λ row. R.value row.now) result ≡ first_row code (map R.value rows.now) }
{
    for row in rows {
        if row.code() == code {
            return Some(row);
        }
    }
    None
}

/// The codes of one registry.
#[derive(Clone, Copy, Debug)]
pub struct CodeTable<const N: usize, R = CodeRow> {
    /// The rows. Where two have one code, the first counts.
    pub rows: [R; N],
}

impl<const N: usize, R: Row> CodeTable<N, R> {
    /// The shape of the first row with that code. `None` exactly where no row has it. Looks at the
    /// rows in turn.
    pub fn find(&self, code: u16) -> Option<Shape>
        ensures { result ≡ option_map (λ row. row.shape) (first_row code (map R.value self.now.rows)) }
    {
        let row = first(&self.rows, code)?;
        Some(row.shape())
    }

    /// The name of the first row with that code. `None` exactly where no row has it. Looks at the
    /// rows in turn.
    pub fn name(&self, code: u16) -> Option<&str>
        ensures { option_copied result ≡ option_map (λ row. row.name) (first_row code (map R.value self.now.rows)) }
    {
        let row = first(&self.rows, code)?;
        Some(row.name())
    }
}
