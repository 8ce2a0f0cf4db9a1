ghost use Rattle.std.specs.Prelude.{◌≡◌, ◌+◌, ◌&&◌, ℕ};
ghost use Rattle.spec_link.specs.Rows.{count_of};
ghost use Rattle.zq_session.specs.Tallies.{Totals, IsTallyOf, TalliesNext, no_totals, with_link, with_takes, with_end, written_by, lost_by};
ghost use Rattle.zq_session.specs.Counting.{IsRowOf};

use spec_link::{LinkEnd, SessionRow};

/// What a session counts. Each count stays at the greatest number.
#[derive(Clone, Copy)]
pub struct Tally {
    /// The links that it was given.
    pub links: u64,
    /// The messages heard, put, written and lost at the links that are over.
    pub heard: u64,
    pub put: u64,
    pub written: u64,
    pub lost: u64,
    /// Why the last of them ended.
    pub last: Option<LinkEnd>,
    /// The messages taken at the link that stands before the last one, which are written.
    pub settled: u64,
    /// Whether a message was taken there at all.
    pub flying: bool,
}

/// The messages of the pipe that a session reads, as far as they are written or lost.
#[derive(Clone, Copy)]
pub struct Carried {
    pub written: u64,
    pub lost: u64,
}

impl Tally {
    /// Nothing was counted yet.
    pub fn none() -> Tally
        ensures { IsTallyOf no_totals result }
    {
        Tally {
            links: 0,
            heard: 0,
            put: 0,
            written: 0,
            lost: 0,
            last: None,
            settled: 0,
            flying: false,
        }
    }

    /// A link is given.
    pub fn begin(&mut self)
        ensures { TalliesNext with_link self.old self.new }
    {
        self.links = self.links.saturating_add(1);
        self.settled = 0;
        self.flying = false;
    }

    /// A message is taken for the link.
    pub fn take(&mut self)
        ensures { TalliesNext (with_takes 1) self.old self.new }
    {
        let flying = self.flying;
        if flying {
            self.settled = self.settled.saturating_add(1);
            return;
        }
        self.flying = true;
    }

    // How many of the messages taken at the link that stands are written, where something is left
    // to be said there, or nothing.
    fn landed(&self, left: bool) -> u64
        ensures { (x : Totals) → IsTallyOf x self.now → result ≡ count_of (written_by left x.taken) }
    {
        let flying = self.flying;
        if !flying {
            return 0;
        }
        if left {
            return self.settled;
        }
        self.settled.saturating_add(1)
    }

    // How many of them are lost where it ends.
    fn adrift(&self, left: bool) -> u64
        ensures { (x : Totals) → IsTallyOf x self.now → result ≡ count_of (lost_by left x.taken) }
    {
        let flying = self.flying;
        if !flying {
            return 0;
        }
        if left {
            return 1;
        }
        0
    }

    /// The link is over, at which so many messages were heard and put, with something left to be
    /// said or nothing.
    pub fn end(&mut self, heard: u64, put: u64, left: bool, why: LinkEnd)
        ensures { (h p : ℕ) → heard ≡ count_of h → put ≡ count_of p →
            TalliesNext (with_end h p left why) self.old self.new }
    {
        let landed = self.landed(left);
        let adrift = self.adrift(left);
        self.written = self.written.saturating_add(landed);
        self.lost = self.lost.saturating_add(adrift);
        self.heard = self.heard.saturating_add(heard);
        self.put = self.put.saturating_add(put);
        self.last = Some(why);
        self.settled = 0;
        self.flying = false;
    }

    /// The row, with so many messages heard and put at the link that stands.
    pub fn row(&self, heard: u64, put: u64) -> SessionRow
        ensures { (x : Totals) (h p : ℕ) → heard ≡ count_of h → put ≡ count_of p →
            IsTallyOf x self.now → IsRowOf x h p result }
    {
        SessionRow {
            links: self.links,
            heard: self.heard.saturating_add(heard),
            put: self.put.saturating_add(put),
            last: self.last,
        }
    }

    /// What is written and lost, where something is left to be said at the link that stands, or
    /// nothing. A session that gave up has lost what is not written.
    pub fn carried(&self, left: bool, gave_up: bool) -> Carried
        ensures written { (x : Totals) → IsTallyOf x self.now →
            result.written ≡ count_of (x.written + written_by left x.taken) }
        ensures lost { (x : Totals) → IsTallyOf x self.now →
            result.lost ≡ count_of (x.lost + lost_by (left && gave_up) x.taken) }
    {
        let adrift = self.adrift(left && gave_up);
        Carried {
            written: self.written.saturating_add(self.landed(left)),
            lost: self.lost.saturating_add(adrift),
        }
    }
}
