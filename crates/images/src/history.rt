//! What a crash may leave of a log, choice after choice.

ghost use Rattle.std.specs.Prelude.{◌≡◌, IfOk, IsOk};

use crate::table::{UnitTable, table_of};
use crate::torn::{put_torn, tear_any};
use crate::versions::Versions;
use crate::view::View;
use arrayvec::ArrayVec;
use choices::Choice;
use epochs::Plan;
use helpers::Context;
use logfmt::Log;
use std::alloc::{AllocError, Global};
use std::marker::Model;

/// The crash images of a log, of which a plan says the wanted cuts. It keeps for each sector that
/// is written the units that cover it, and no content.
///
/// Contracts see a history as its plan.
#[derive(Drop)]
pub struct History<'a> {
    plan: &'a Plan<'a>,
    log: &'a Log<'a>,
    table: UnitTable,
}

impl<'a> Model for History<'a> {
    ghost use Rattle.std.specs.Prelude.{◌≡◌};
    ghost use Rattle.epochs.specs.Plan.{PlanValue};
    ghost use Rattle.images.specs.Table.{IsTable};

    ghost Value = { PlanValue };

    ghost view = { λ h. h.plan.now };

    ghost invariant = { λ h. (h.plan.now.log ≡ h.log.now) × IsTable h.log.now h.table.units.items h.table.starts.items };
}

impl<'a> History<'a> {
    ghost use Rattle.images.specs.Views.{IsMember, view_of};

    /// The crash images of a plan's log. It takes memory for each unit, and the time of a sort.
    pub fn new(
        alloc: Global,
        plan: &'a Plan<'a>,
        log: &'a Log<'a>,
    ) -> Result<History<'a>, AllocError>
        requires { plan.now.log ≡ log.now }
        ensures { IfOk result (λ history. history ≡ plan.now) }
    {
        let table = table_of(alloc, log)?;
        Ok(History { plan, log, table })
    }

    /// The units that cover each sector.
    pub(crate) fn versions(&self) -> Versions<'_>
        ensures { result ≡ self.now.log }
    {
        Versions::of(&*self.log, &self.table)
    }

    /// The crash image of a choice of the plan, as a device. It borrows the sectors of the log, takes
    /// no memory, and never refuses.
    #[inline(always)]
    pub fn view(&self, _alloc: Global, choice: &Choice) -> Result<View<'_>, AllocError>
        requires { IsMember self.now choice.now }
        ensures value { IfOk result (λ view. view ≡ view_of self.now choice.now) }
        ensures always { IsOk result }
    {
        let cut = choice.cut();
        let versions = Versions::of(&*self.log, &self.table);
        let own = choice.departures();
        let departures = choice.departures_owned();
        let context = Context {
            sectors: self.log.sectors(),
            epoch: self.plan.epoch(cut),
            marks: self.plan.marks(cut),
        };
        if tear_any(own) {
            let mut torn = ArrayVec::new();
            put_torn(&mut torn, &versions, cut, own);
            return Ok(View {
                versions,
                cut,
                departures,
                torn,
                context,
            });
        }
        Ok(View {
            versions,
            cut,
            departures,
            torn: ArrayVec::new(),
            context,
        })
    }
}
