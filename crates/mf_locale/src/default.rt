ghost use Rattle.std.specs.Prelude.{◌≡◌, IfOk};
ghost use Rattle.mf_locale.specs.Records.{root_layout, root_record};

use crate::record::LocaleRecord;
use mf_numfmt::Layout;
use mf_plural::Rules;
use mf_text::{Direction, Text};
use std::alloc::{AllocError, Global};

/// The record of every language of which no record was published: from left to right, `.` before
/// the fraction, `,` between groups of three digits, and no plural rules.
pub fn root(alloc: Global) -> Result<LocaleRecord, AllocError>
    ensures { IfOk result (λ r. r ≡ root_record) }
{
    let layout = root_layout(alloc)?;
    Ok(LocaleRecord {
        dir: Direction::Ltr,
        layout,
        plural: Rules::new(alloc),
        ordinal: Rules::new(alloc),
    })
}

/// The layout of its numbers.
fn root_layout(alloc: Global) -> Result<Layout, AllocError>
    ensures { IfOk result (λ layout. layout ≡ root_layout) }
{
    let decimal = Text::of(alloc, ".")?;
    let group = Text::of(alloc, ",")?;
    let minus = Text::of(alloc, "-")?;
    let plus = Text::of(alloc, "+")?;
    Ok(Layout {
        decimal,
        group,
        minus,
        plus,
        primary: 3,
        secondary: 3,
        min_group: 1,
    })
}
