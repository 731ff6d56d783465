// A follower: the entries that it took, and what is left of its stream.
ghost use Rattle.std.specs.Prelude.{◌≡◌, ◌++◌, List, ℕ, [], Err, Some, None, length, IfOk, IfErr, IfSome, OnOk};
ghost use Rattle.ps_types.specs.declared.entry.Entry.{Entry};
ghost use Rattle.ps_follow_laws.specs.Follow.{IsFront};
ghost use Rattle.ps_follow.specs.Answering.{IsAnswerAt};
ghost use Rattle.ps_follow.specs.Followed.{GoesOn, Has, IsAt, IsStuck};

use crate::answering::{FollowAnswer, reply_for};
use crate::feeding::take_all;
use crate::refusal::{FeedRefusal, stop_of};
use ps_base::{Bytes, Memory};
use ps_core::Service;
use ps_types::{Arrival, Text};
use std::alloc::Global;
use std::marker::Model;
use std::thread::Threads;

/// A follower. A contract sees its State, the bytes of its entries, how many bytes of its stream are in whole records, those behind them, and the refusal that it
/// answers until the next [`Follower::cut`]. Its entries are those that leave this State and have these bytes (`Has`).
pub struct Follower {
    service: Service,
    log: Vec<Bytes>,
    rest: Vec<u8>,
    at: u64,
    stuck: Option<FeedRefusal>,
    alloc: Global,
}

// By hand, so that a follower is let go by one call wherever a function ends.
impl Drop for Follower {
    fn drop(self) {
        let Follower {
            service: _,
            log: _,
            rest: _,
            at: _,
            stuck: _,
            alloc: _,
        } = self;
    }
}

impl Model for Follower {
    ghost use Rattle.ps_types.specs.TreeCode.{tree_code};
    ghost use Rattle.std.specs.Coded.{codes};
    ghost use Rattle.ps_follow.specs.Following.{HasEntries};
    ghost use Rattle.ps_follow.specs.View.{Following};

    ghost Value = { Following };

    ghost coded = { Prim.hlevel (codes, tree_code) };

    ghost view = { λ f. record {
      state = f.service.state;
      log = f.log.items;
      at = f.at;
      rest = f.rest.items;
      stuck = f.stuck;
    } };

    ghost invariant = { λ f. HasEntries f.service.state f.log.items };
}

/// So many bytes of one stream are taken at most: a stream that is longer fails as if memory had run out.
const LONGEST: u64 = 1 << 62;

impl Follower {
    /// A follower with no entries and no stream begun.
    ///
    /// # Errors
    /// Memory.
    pub fn new(alloc: Global) -> Result<Follower, Memory>
        ensures { IfOk result (λ f. IsAt f [] [] []) }
    {
        Ok(Follower {
            service: Service::new(alloc)?,
            log: Vec::new(alloc),
            rest: Vec::new(alloc),
            at: 0,
            stuck: None,
            alloc,
        })
    }

    /// Takes the whole records of the stream, to which this piece comes, and answers how many entries there are then.
    ///
    /// # Errors
    /// The first record that isn't taken, at its offset; the records before it stay taken. After Memory the entries are those of a front of the stream, and all that there
    /// were before. After each error the answer is the same until the next [`Follower::cut`].
    pub fn feed<R: Threads + Sync>(&mut self, rt: &R, piece: &[u8]) -> Result<u64, FeedRefusal>
        ensures at { (E F : List Entry) (stream : List ℕ) → IsAt self.old E stream F
            → IfOk result (GoesOn self.new E (stream ++ piece.now)) }
        ensures stuck { (E F : List Entry) (stream : List ℕ) → IsAt self.old E stream F
            → IfErr result (IsStuck self.new E (stream ++ piece.now)) }
        ensures grows { (F : List Entry) → Has self.old F → (G : List Entry) × Has self.new G × IsFront F G }
        ensures again { IfSome self.old.stuck (λ why. (result ≡ Err why) × (self.new ≡ self.old)) }
        ensures going { OnOk result (self.new.stuck ≡ None) }
        ensures stops { IfErr result (λ why. self.new.stuck ≡ Some why) }
    {
        if let Some(why) = self.stuck {
            return Err(why);
        }
        match self.take(rt, piece) {
            Ok(count) => Ok(count),
            Err(why) => {
                self.stuck = Some(why);
                Err(why)
            }
        }
    }

    // The same where nothing has stopped it.
    fn take<R: Threads + Sync>(&mut self, rt: &R, piece: &[u8]) -> Result<u64, FeedRefusal>
        ensures at { (E F : List Entry) (stream : List ℕ) → IsAt self.old E stream F
            → IfOk result (GoesOn self.new E (stream ++ piece.now)) }
        ensures stuck { (E F : List Entry) (stream : List ℕ) → IsAt self.old E stream F
            → IfErr result (IsStuck self.new E (stream ++ piece.now)) }
        ensures grows { (F : List Entry) → Has self.old F → (G : List Entry) × Has self.new G × IsFront F G }
        ensures same { self.new.stuck ≡ self.old.stuck }
    {
        if self.at >= LONGEST {
            return Err(FeedRefusal::Memory);
        }
        let Ok(()) = self.rest.extend_from_slice(piece) else {
            return Err(FeedRefusal::Memory);
        };
        let (taken, end) = take_all(
            rt,
            self.alloc,
            &mut self.service,
            &mut self.log,
            self.rest.as_slice(),
        );
        let at = self.at + taken as u64;
        let count = self.log.len() as u64;
        if let Some(why) = stop_of(end, at, count) {
            return Err(why);
        }
        self.rest.drain(..taken);
        self.at = at;
        Ok(count)
    }

    /// Begins a new stream; the entries stay. It takes no memory.
    pub fn cut(&mut self)
        ensures { (F : List Entry) → Has self.old F → IsAt self.new F [] F }
    {
        self.rest.clear();
        self.at = 0;
        self.stuck = None;
    }

    /// How many entries it has.
    pub fn count(&self) -> u64
        ensures { (F : List Entry) → Has self.now F → result ≡ length F }
    {
        self.log.len() as u64
    }

    /// What the line of that number on the stream of the host is answered at its entries: what the service would answer, but that nothing commits.
    ///
    /// # Errors
    /// Memory.
    pub fn answer(&self, host: &Text, line: u64, arrival: &Arrival) -> Result<FollowAnswer, Memory>
        ensures { (F : List Entry) → Has self.now F → IfOk result (IsAnswerAt F host.now line arrival.now) }
    {
        let place = self.log.len() as u64;
        let answered = self.service.answer_with_room(host, line, arrival)?;
        let (answer, request) = answered.into_parts();
        let (reply, entry) = answer.into_said();
        let reply = reply_for(self.alloc, reply, &entry, &request)?;
        Ok(FollowAnswer { place, reply })
    }
}
