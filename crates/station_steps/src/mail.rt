//! The mail of a window: what all stations (logical processes) sent in it, unsorted. Each station reads its own
//! messages from the senders' lists at its next step, in the thread that steps it.
ghost use Rattle.std.specs.Prelude.{◌≡◌, IfOk, OnOk};
ghost use Rattle.std.specs.List.{flat_map};
ghost use Rattle.phys_proc.specs.Ends.{ends_in};
ghost use Rattle.station_steps.specs.Mail.{IsEarliest, IsFirstFor, IsMailTaken};
ghost use Rattle.station_steps.specs.Windows.{IsDeliveredTo, mail_for};

use crate::sent_list::{NO_MAIL, SentList};
use clone_sets::CloneSet;
use phys_proc::{CloneEnds, Proc};
use sim_base::NoMemory;
use std::alloc::Global;
use std::sync::Arc;

/// The mail of a window: the messages that all stations sent, list by list in the order of the stations. All stations
/// share it until each has taken its own messages.
#[derive(Drop)]
pub struct Mail {
    lists: Vec<SentList>,
}

impl std::marker::Model for Mail {
    ghost use Rattle.std.specs.List.{flat_map};
    ghost use Rattle.phys_proc.specs.Own.{MarkedMessages};

    ghost Value = { MarkedMessages };

    ghost view = { λ m. flat_map (λ l. l.items) m.lists.items };
}

impl Mail {
    /// Makes mail of these lists, which all stations share.
    ///
    /// # Errors
    ///
    /// Out of memory: the lists are dropped.
    pub(crate) fn shared(alloc: Global, lists: Vec<SentList>) -> Result<Arc<Mail>, NoMemory>
        ensures value { IfOk result (λ m. m.value ≡ flat_map (λ l. l.items) lists.items) }
    {
        Ok(Arc::new(alloc, Mail { lists })?)
    }

    /// Returns the lists, to reuse their memory, if no station shares the mail any more.
    pub(crate) fn lists_of(alloc: Global, mail: Option<Arc<Mail>>) -> Vec<SentList> {
        let Some(shared) = mail else {
            return Vec::new(alloc);
        };
        match Arc::into_inner(shared) {
            Some(mail) => mail.lists,
            None => Vec::new(alloc),
        }
    }

    /// A lower bound of the times of the messages for the station; [`NO_MAIL`] only if there is none.
    pub(crate) fn first_for(&self, station: u32) -> u64
        ensures first { IsFirstFor station self.now result }
    {
        let mut first = NO_MAIL;
        for i in 0..self.lists.len() {
            first = first.min(self.lists[i].first_for(station));
        }
        first
    }

    /// Delivers to the copies of a station their messages.
    ///
    /// # Errors
    ///
    /// Out of memory: some of the copies may have some of the messages.
    pub(crate) fn hand_over(&self, proc: &mut Proc) -> Result<(), NoMemory>
        ensures given { OnOk result (IsDeliveredTo (mail_for proc.old.station self.now) proc.old proc.new) }
        // also if out of memory
        ensures station { proc.new.station ≡ proc.old.station }
        ensures living { proc.new.living ≡ proc.old.living }
        ensures handled { proc.new.handled ≡ proc.old.handled }
    {
        for i in 0..self.lists.len() {
            self.lists[i].hand_over(proc)?;
        }
        Ok(())
    }

    /// The earlier of a time and the least time of the station's messages that some of these clones take, each before
    /// its end.
    pub(crate) fn earlier_for(
        &self,
        station: u32,
        clones: CloneSet,
        ends: &CloneEnds,
        horizon: u64,
        before: Option<u64>,
    ) -> Option<u64>
        ensures earliest { IsEarliest before
            (IsMailTaken (ends_in horizon ends.now) clones (mail_for station self.now)) result }
    {
        let mut least = before;
        for i in 0..self.lists.len() {
            least = self.lists[i].earlier_for(station, clones, ends, horizon, least);
        }
        least
    }
}
