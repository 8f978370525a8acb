//! What a change of a descriptor grants and takes away.

ghost use Rattle.std.specs.Prelude.{◌≡◌, ◌<◌, ℕ, Bool, IfOk, OnOk, ◌++◌, true, false, Some, None, []};
ghost use Rattle.std.specs.List.{All};
ghost use Rattle.sd_sid.specs.Mask.{holds};
ghost use Rattle.sd_check.specs.Token.{TokenValue};
ghost use Rattle.sd_check.specs.declared.grounds.Pass.TheVariants.{First, Second};
ghost use Rattle.sd_analysis.specs.Base.{HasBase};
ghost use Rattle.sd_analysis.specs.Sufficient.{parts_of};
ghost use Rattle.sd_analysis.specs.Compare.{AreGains};
ghost use Rattle.sd_analysis.specs.Report.{AreFindings, IsCase, IsLess, IsNotGained, IsRefused, IsRefusedAgain};
ghost use Rattle.sd_analysis.specs.Report.{IsReport, IsReportOf, is_found, new_of, old_of, rest_of, token_meets};
ghost use Rattle.sd_analysis.specs.declared.witness.Witness.{Witness};

use crate::base::Base;
use crate::compare_report::{Change, Report};
use crate::compare_search::{Case, Finding};
use crate::compare_sides::{DescriptorRef, unnamed};
use crate::compare_table::Table;
use crate::witness::{Demand, Witness};
use sd_check::Pass;
use sd_sid::{GenericMapping, OBJECT_RIGHTS};
use std::alloc::{AllocError, Global};

/// What a change of a descriptor comes to: which bits tokens gain by it, and which they lose, each with a token that
/// does.
#[derive(Debug, Drop)]
pub struct Comparison {
    pub gained: Vec<Change>,
    pub lost: Vec<Change>,
}

/// What tokens with the base gain and lose where the new descriptor takes the place of the old one ([MS-DTYP] 2.5.3.2):
/// a bit that isn't in `gained` is granted by the new one only where the old one grants it, to every such token; each
/// change in `gained` has a witness that is granted its bits by the new one, and none of them by the old one. `lost` is
/// the same with the two exchanged. A descriptor and itself have no changes. Fails only out of memory.
pub fn compare<'x>(
    alloc: Global,
    old: &'x DescriptorRef<'x>,
    new: &'x DescriptorRef<'x>,
    mapping: &'x GenericMapping,
    base: &'x Base<'x>,
) -> Result<Comparison, AllocError>
    ensures gained { IfOk result (λ c.
        AreGains mapping.now base.now (parts_of old.now) (parts_of new.now) c.gained.items) }
    ensures lost { IfOk result (λ c. AreGains mapping.now base.now (parts_of new.now) (parts_of old.now) c.lost.items) }
    ensures same { IfOk result (λ c. parts_of old.now ≡ parts_of new.now
        → (c.gained.items ≡ []) × (c.lost.items ≡ [])) }
{
    let gained = gains(alloc, old, new, mapping, base)?;
    let lost = gains(alloc, new, old, mapping, base)?;
    Ok(Comparison { gained, lost })
}

/// What tokens with the base gain.
fn gains<'x>(
    alloc: Global,
    old: &'x DescriptorRef<'x>,
    new: &'x DescriptorRef<'x>,
    mapping: &'x GenericMapping,
    base: &'x Base<'x>,
) -> Result<Vec<Change>, AllocError>
    ensures { IfOk result (λ changes.
        AreGains mapping.now base.now (parts_of old.now) (parts_of new.now) changes.items) }
{
    let other = unnamed(old, new);
    let allowed = new.allowed(alloc, other)?;
    let denied = old.subjects(alloc, false)?;
    let mut sids = Vec::from_slice(alloc, &allowed)?;
    sids.extend_from_slice(&denied)?;
    let table = Table::new(alloc, &sids, old, new, mapping, base)?;
    let case = Case {
        old,
        new,
        mapping,
        base,
        other,
        allowed,
        denied,
        table,
    };
    case.gains(alloc)
}

impl Case<'_> {
    /// The bits that tokens gain, each with one that does.
    pub(crate) fn gains(&self, alloc: Global) -> Result<Vec<Change>, AllocError>
        requires { IsCase self.now }
        ensures { IfOk result (λ changes. let case = self.now in AreGains case.mapping.now case.base.now
            (old_of case) (new_of case) changes.items) }
    {
        let mut report = Report {
            changes: Vec::new(alloc),
            wanted: OBJECT_RIGHTS,
        };
        self.unrestricted(alloc, &mut report, false)?;
        self.unrestricted(alloc, &mut report, true)?;
        self.restricted(alloc, &mut report, false)?;
        self.restricted(alloc, &mut report, true)?;
        Ok(report.changes)
    }

    /// Reports what unrestricted tokens gain, by an entry or as the owner's.
    fn unrestricted(
        &self,
        alloc: Global,
        report: &mut Report,
        by_owner: bool,
    ) -> Result<(), AllocError>
        requires { IsCase self.now }
        ensures report { OnOk result (IsReportOf self.now report.old → IsReportOf self.now report.new) }
        ensures less { OnOk result (IsLess report.old report.new) }
        ensures complete { OnOk result ((t : TokenValue) (b : ℕ) → b < 21 → HasBase self.now.base.now t
            → holds report.new.wanted b ≡ true
            → token_meets self.now First (record { by_owner = by_owner; unlisted = true; unowned = true }) t b
            ≡ false) }
    {
        if !self.may_gain(by_owner) {
            return Ok(());
        }
        let demand = Demand {
            by_owner,
            unlisted: true,
            unowned: true,
        };
        let findings = self.search(alloc, Pass::First, demand, report.wanted)?;
        add_each(report, &findings)?;
        Ok(())
    }

    /// Reports what restricted tokens gain beside: the old descriptor fails by its entries, or by its owner, in the
    /// second pass alone. Without a base the second pass is that of another token, whose first pass was tried.
    fn restricted(
        &self,
        alloc: Global,
        report: &mut Report,
        by_owner: bool,
    ) -> Result<(), AllocError>
        requires { IsCase self.now }
        ensures report { OnOk result (IsReportOf self.now report.old → IsReportOf self.now report.new) }
        ensures less { OnOk result (IsLess report.old report.new) }
        ensures complete { OnOk result ((b : ℕ) → b < 21 → holds report.new.wanted b ≡ true
            → IsNotGained self.now by_owner b
            → (t : TokenValue) → HasBase self.now.base.now t → IsRefusedAgain self.now t by_owner b) }
    {
        if !self.may_gain(by_owner) {
            return Ok(());
        }
        let rest = Demand {
            by_owner,
            unlisted: true,
            unowned: false,
        };
        let is_met = self.first_then_second(alloc, report, rest)?;
        if !is_met && self.base.is_empty() {
            return Ok(());
        }
        self.list_fails_again(alloc, report, by_owner)?;
        Ok(())
    }

    /// Reports what restricted tokens gain for which the old descriptor fails by its entries in the second pass alone.
    fn list_fails_again(
        &self,
        alloc: Global,
        report: &mut Report,
        by_owner: bool,
    ) -> Result<(), AllocError>
        requires { IsCase self.now }
        ensures report { OnOk result (IsReportOf self.now report.old → IsReportOf self.now report.new) }
        ensures less { OnOk result (IsLess report.old report.new) }
        ensures list { OnOk result ((b : ℕ) → b < 21 → holds report.new.wanted b ≡ true
            → IsNotGained self.now by_owner b
            → (t : TokenValue) → HasBase self.now.base.now t
            → IsRefused self.now (record { by_owner = by_owner; unlisted = false; unowned = true }) t b) }
        ensures both { OnOk result ((b : ℕ) → b < 21 → holds report.new.wanted b ≡ true
            → IsNotGained self.now by_owner b
            → (t : TokenValue) → HasBase self.now.base.now t
            → IsRefused self.now (record { by_owner = by_owner; unlisted = false; unowned = false }) t b) }
    {
        let owned = Demand {
            by_owner,
            unlisted: false,
            unowned: true,
        };
        let is_met = self.second_then_first(alloc, report, owned)?;
        if !is_met {
            return Ok(());
        }
        let either = Demand {
            by_owner,
            unlisted: false,
            unowned: false,
        };
        self.second_then_first(alloc, report, either)?;
        Ok(())
    }

    /// Reports what tokens gain that meet the demand in the first pass, and the rest in the second. Returns whether any
    /// SIDs meet it in the first.
    fn first_then_second(
        &self,
        alloc: Global,
        report: &mut Report,
        demand: Demand,
    ) -> Result<bool, AllocError>
        requires { IsCase self.now }
        ensures report { OnOk result (IsReportOf self.now report.old → IsReportOf self.now report.new) }
        ensures less { OnOk result (IsLess report.old report.new) }
        ensures complete { OnOk result ((b : ℕ) → b < 21 → holds report.new.wanted b ≡ true
            → IsNotGained self.now demand.by_owner b
            → (t : TokenValue) → HasBase self.now.base.now t → IsRefused self.now demand t b) }
        ensures none { IfOk result (λ is_met. is_met ≡ false → (b : ℕ) → b < 21 → holds report.new.wanted b ≡ true
            → IsNotGained self.now demand.by_owner b
            → (t : TokenValue) → HasBase self.now.base.now t → token_meets self.now First demand t b ≡ false) }
    {
        let first = self.search(alloc, Pass::First, demand, report.wanted)?;
        if first.is_empty() {
            return Ok(false);
        }
        let second = self.search(alloc, Pass::Second, demand.rest(), report.wanted)?;
        add_pairs(report, &first, &second)?;
        Ok(true)
    }

    /// Reports what tokens gain that meet the demand in the first pass, and the rest in the second, which is searched
    /// first. Returns whether any SIDs meet the rest in that.
    fn second_then_first(
        &self,
        alloc: Global,
        report: &mut Report,
        demand: Demand,
    ) -> Result<bool, AllocError>
        requires { IsCase self.now }
        ensures report { OnOk result (IsReportOf self.now report.old → IsReportOf self.now report.new) }
        ensures less { OnOk result (IsLess report.old report.new) }
        ensures complete { OnOk result ((b : ℕ) → b < 21 → holds report.new.wanted b ≡ true
            → IsNotGained self.now demand.by_owner b
            → (t : TokenValue) → HasBase self.now.base.now t → IsRefused self.now demand t b) }
        ensures none { IfOk result (λ is_met. is_met ≡ false → (b : ℕ) → b < 21 → holds report.new.wanted b ≡ true
            → (t : TokenValue) → HasBase self.now.base.now t
            → token_meets self.now Second (rest_of demand) t b ≡ false) }
    {
        let second = self.search(alloc, Pass::Second, demand.rest(), report.wanted)?;
        if second.is_empty() {
            return Ok(false);
        }
        let first = self.search(alloc, Pass::First, demand, report.wanted)?;
        add_pairs(report, &first, &second)?;
        Ok(true)
    }
}

/// Reports the findings of the first pass, for tokens that nothing restricts.
fn add_each(report: &mut Report, findings: &[Finding]) -> Result<(), AllocError>
    ensures report { OnOk result ((shows : Witness → ℕ → Bool) → IsReport shows report.old
        → All (λ f. (b : ℕ) → holds f.mask b ≡ true
        → shows (record { first = f.sids; second = None }) b ≡ true) findings.now
        → IsReport shows report.new) }
    ensures less { OnOk result (IsLess report.old report.new) }
    ensures gone { OnOk result ((b : ℕ) → b < 21 → is_found findings.now b ≡ true → holds report.new.wanted b ≡ false) }
{
    for finding in findings {
        let witness = Witness {
            first: finding.sids,
            second: None,
        };
        report.add(&witness, finding.mask)?;
    }
    Ok(())
}

/// Reports the bits that findings of both passes share.
fn add_pairs(report: &mut Report, first: &[Finding], second: &[Finding]) -> Result<(), AllocError>
    ensures report { OnOk result ((shows : Witness → ℕ → Bool) → IsReport shows report.old
        → All (λ f. All (λ s. (b : ℕ) → holds f.mask b ≡ true → holds s.mask b ≡ true
        → shows (record { first = f.sids; second = Some s.sids }) b ≡ true) second.now) first.now
        → IsReport shows report.new) }
    ensures less { OnOk result (IsLess report.old report.new) }
    ensures gone { OnOk result ((b : ℕ) → b < 21 → is_found first.now b ≡ true → is_found second.now b ≡ true
        → holds report.new.wanted b ≡ false) }
{
    for finding in first {
        pair(report, finding, second)?;
    }
    Ok(())
}

/// Reports the bits that the finding of the first pass shares with those of the second.
fn pair(report: &mut Report, first: &Finding, second: &[Finding]) -> Result<(), AllocError>
    ensures report { OnOk result ((shows : Witness → ℕ → Bool) → IsReport shows report.old
        → All (λ f. (b : ℕ) → holds first.now.mask b ≡ true → holds f.mask b ≡ true
        → shows (record { first = first.now.sids; second = Some f.sids }) b ≡ true) second.now
        → IsReport shows report.new) }
    ensures less { OnOk result (IsLess report.old report.new) }
    ensures gone { OnOk result ((b : ℕ) → b < 21 → holds first.now.mask b ≡ true → is_found second.now b ≡ true
        → holds report.new.wanted b ≡ false) }
{
    for more in second {
        let witness = Witness {
            first: first.sids,
            second: Some(more.sids),
        };
        report.add(&witness, first.mask.common(more.mask))?;
    }
    Ok(())
}
