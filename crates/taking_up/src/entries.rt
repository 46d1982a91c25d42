// The entries of a parked sheet, by name.
ghost use Rattle.std.specs.Prelude.{◌≡◌, IfOk, IfErr};
ghost use Rattle.sheet.specs.Sheet as S;
ghost use Rattle.parking.specs.inner.Told.{count_by};
ghost use Rattle.refusal.specs.Table.{number_of};
ghost use Rattle.taking_up.specs.inner.ByKind.{kind_in, told, parts_in};

use nonrecursive::Thinning;
use refusal::Refusal;
use sheet::TapSheet;

// A sheet of seven has no last one.
#[derive(Clone, Copy)]
pub(crate) struct Entries<'a> {
    pub settings: &'a [u8],
    pub cic: &'a [u8],
    pub taps: &'a [u8],
    pub delay: &'a [u8],
    pub half_band: &'a [u8],
    pub cells: &'a [u8],
    pub resampler: &'a [u8],
    pub last: Option<&'a [u8]>,
}

// Entry k, none where it is refused.
fn part<'a>(sheet: TapSheet<'a>, k: usize) -> &'a [u8]
    ensures { result.now ≡ S.entry S.Rule.present sheet.entry.bytes.now sheet.entry.count k }
{
    sheet.entry(k).unwrap_or(&[])
}

impl<'a> Entries<'a> {
    // Those of a sheet of seven, or of eight where neighbours are summed. Refusal 21.
    pub(crate) fn of(sheet: TapSheet<'a>) -> Result<Entries<'a>, Refusal>
        ensures kind { IfOk result (λ e. sheet.entry.count ≡ count_by (kind_in e)) }
        ensures parts { IfOk result (λ e. told e ≡ parts_in (kind_in e) sheet.entry.bytes.now sheet.entry.count) }
        ensures other { IfErr result (λ why. (number_of why ≡ 21) × (sheet.entry.count ≡ 7 → ⊥) × (sheet.entry.count ≡ 8 → ⊥)) }
    {
        let last = match sheet.count {
            7 => None,
            8 => Some(part(sheet, 7)),
            _ => return Err(Refusal::Parked),
        };
        Ok(Entries {
            settings: part(sheet, 0),
            cic: part(sheet, 1),
            taps: part(sheet, 2),
            delay: part(sheet, 3),
            half_band: part(sheet, 4),
            cells: part(sheet, 5),
            resampler: part(sheet, 6),
            last,
        })
    }

    // Which kind of section 1 they are of.
    pub(crate) fn thinning(self) -> Thinning
        ensures { result ≡ kind_in self.entry }
    {
        match self.last {
            None => Thinning::Integrators,
            Some(_) => Thinning::Neighbours,
        }
    }
}
