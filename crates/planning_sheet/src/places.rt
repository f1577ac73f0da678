// The places of a sheet's numbers, and the values that each may have.
ghost use Rattle.std.specs.Prelude.{◌≤◌};

use numbers::Number;
use numbers::reader::Fields;
use refusals::Refusal;
use sections::section::Section;
use sections::table;

// The places of a sheet of so many sections.
#[derive(Clone, Copy)]
pub struct Places {
    pub count: usize,
    pub ghost few: { count ≤ 64 },
}

impl Places {
    ghost use Rattle.std.specs.Prelude.{◌≡◌, ◌<◌};
    ghost use Rattle.sections.specs.Numbers.{numbers_of};
    ghost use Rattle.planning_sheet.specs.Good.{GoodSections};
    ghost use Rattle.planning_sheet.specs.Sheet.{section_field, allowed_at, section_of};

    // Whether a value is one of a section's j-th field.
    #[tactic(auto, unfolding(crate::specs::Sheet::section_field))]
    fn is_section_field(j: usize, value: u32) -> bool
        ensures { result ≡ section_field j value }
    {
        match j {
            0 => (300..=26400).contains(&value),
            1 => (1..=8).contains(&value),
            2 => table::is_tabled(value),
            _ => (100..=1000).contains(&value),
        }
    }

    // Whether a value is one of the k-th place after the count.
    #[tactic(auto, unfolding(crate::specs::Sheet::allowed_at))]
    fn is_allowed(&self, k: usize, value: u32) -> bool
        ensures { result ≡ allowed_at self.now.count k value }
    {
        if k < 4 * self.count {
            Places::is_section_field(k % 4, value)
        } else {
            value <= 20000
        }
    }

    // Section i of a row of numbers: four numbers of each section, and then the two flows of each.
    #[tactic(auto, using(crate::proofs::Ranges::tabled_least), unfolding(crate::specs::Sheet::section_of))]
    pub fn section_in(&self, row: &[u32; 384], i: usize) -> Section
        requires within { i < self.now.count }
        requires good { GoodSections self.now.count row.now }
        ensures { numbers_of result ≡ section_of self.now.count row.now i }
    {
        let fields = 4 * i;
        let flows = 4 * self.count + 2 * i;
        Section {
            length: row[fields],
            lanes: row[fields + 1],
            ffs: row[fields + 2],
            caf: row[fields + 3],
            inflow: row[flows],
            outflow: row[flows + 1],
        }
    }
}

impl Fields<384> for Places {
    ghost use Rattle.planning_sheet.specs.Sheet.{field_at};

    ghost field = { λ s. field_at s.count };

    // Stays: no plainer. `numbers::read_field` holds a field to a range, this to a test; one for both would take a closure for an `if`.
    #[tactic(auto, unfolding(crate::specs::Sheet::field_at, crate::specs::Sheet::held_to))]
    fn read_place(&self, bytes: &[u8], k: usize, at: usize) -> Result<Number, Refusal> {
        let number = numbers::read(bytes, at)?;
        if self.is_allowed(k, number.value) {
            Ok(number)
        } else {
            Err(Refusal::OutOfRange)
        }
    }
}
