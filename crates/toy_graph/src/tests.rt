// Adding, and inquiries over the chain: full and widened, ended either way, spent, in parts, and turned down.
ghost use Rattle.std.specs.Prelude.{◌≤◌};

use crate::Chain;
use antichain::add;
use antichain::fill::Fill;
use inquiry::record::Inquiry;
use inquiry::refusal::Refusal;
use inquiry::report::Report;
use inquiry::standing::Standing;
use std::process::Abort;
use std::test::Fail;

// One place more than an inquiry takes.
const LONG: usize = 4097;

#[derive(Clone, Copy, PartialEq)]
struct Tables {
    outer: [u8; LONG],
    inner: [u8; LONG],
    work: [u8; LONG],
}

impl Tables {
    fn fresh() -> Tables {
        Tables {
            outer: [9; LONG],
            inner: [9; LONG],
            work: [9; LONG],
        }
    }
}

// The first bytes of each table are lent, as many as a call says.
#[derive(Drop)]
struct Trial {
    graph: Chain,
    inquiry: Inquiry,
    tables: Tables,
    // what was lent to the last widening that was turned down
    longer: Tables,
}

// Why an opening was turned down, and whether outer was as before.
#[derive(Clone, Copy, PartialEq, Debug)]
struct Closed {
    refusal: Refusal,
    unchanged: bool,
}

fn length(n: usize) -> usize
    ensures { result ≤ 4097 }
{
    n.min(LONG)
}

fn front(table: &[u8; LONG], n: usize) -> &[u8] {
    &table[0..length(n)]
}

impl Trial {
    fn open(stuck: bool, lent: [usize; 3], limit: u32) -> Result<Trial, Closed> {
        let graph = Chain { stuck };
        let mut outer = [9; LONG];
        let free = [9; LONG];
        let opened = Inquiry::open(
            &graph,
            &mut outer[0..length(lent[0])],
            front(&free, lent[1]),
            front(&free, lent[2]),
            limit,
        );
        match opened {
            Ok(inquiry) => Ok(Trial {
                graph,
                inquiry,
                tables: Tables {
                    outer,
                    inner: free,
                    work: free,
                },
                longer: Tables::fresh(),
            }),
            Err(refusal) => Err(Closed {
                refusal,
                unchanged: outer == free,
            }),
        }
    }

    fn run(&mut self, lent: [usize; 3], budget: u32) -> Result<(), Refusal> {
        self.inquiry.run(
            &self.graph,
            &mut self.tables.outer[0..length(lent[0])],
            &mut self.tables.inner[0..length(lent[1])],
            &mut self.tables.work[0..length(lent[2])],
            budget,
        )
    }

    fn widen(&mut self, old: [usize; 2], lent: [usize; 3]) -> Result<(), Refusal> {
        let mut longer = Tables::fresh();
        let widened = self.inquiry.widen::<Chain>(
            front(&self.tables.outer, old[0]),
            front(&self.tables.inner, old[1]),
            &mut longer.outer[0..length(lent[0])],
            &mut longer.inner[0..length(lent[1])],
            front(&longer.work, lent[2]),
        );
        match widened {
            Ok(()) => self.tables = longer,
            Err(_) => self.longer = longer,
        }
        widened
    }

    fn report(&self) -> Report {
        self.inquiry.report::<Chain>()
    }
}

// What a new opening in so many places reports.
fn opened(limit: u32, places: usize) -> Report {
    Report {
        standing: Standing::Running,
        round: 0,
        sweep: 0,
        count: 0,
        limit,
        places,
        outer: 2,
        inner: 0,
    }
}

#[test]
fn goes_on_in_longer_tables(rt: HostRuntime) -> Result<(), Fail> {
    let Ok(mut t) = Trial::open(false, [3; 3], 100) else {
        return Err(Fail::new("open is refused"));
    };
    let new = opened(100, 3);
    assert_eq!(rt; t.report(), new);
    assert!(rt; &t.tables.outer[0..3] == [4, 0, 9].as_slice());
    t.run([3; 3], 100)?;
    let full = Report {
        standing: Standing::Full,
        sweep: 3,
        count: 3,
        inner: 3,
        ..new
    };
    assert_eq!(rt; t.report(), full);
    assert!(rt; &t.tables.outer[0..2] == [4, 0].as_slice());
    assert!(rt; &t.tables.inner[0..3] == [0, 1, 2].as_slice());
    t.widen([3; 2], [5; 3])?;
    let wider = Report {
        standing: Standing::Running,
        places: 5,
        ..full
    };
    assert_eq!(rt; t.report(), wider);
    assert!(rt; &t.tables.outer[0..2] == [4, 0].as_slice());
    assert!(rt; &t.tables.inner[0..3] == [0, 1, 2].as_slice());
    t.run([5; 3], 100)?;
    let ended = Report {
        standing: Standing::Possible,
        round: 2,
        sweep: 0,
        count: 10,
        outer: 4,
        inner: 0,
        ..wider
    };
    assert_eq!(rt; t.report(), ended);
    assert!(rt; &t.tables.outer[0..4] == [0, 1, 2, 3].as_slice());
    Ok(())
}

// Opened with five places and run, at once or by single sweeps, with a budget of 0 before and after.
fn ended(rt: &impl Abort, stuck: bool, limit: u32, budget: u32) -> Result<Report, Fail> {
    let Ok(mut t) = Trial::open(stuck, [5; 3], limit) else {
        return Err(Fail::new("open is refused"));
    };
    t.run([5; 3], 0)?;
    assert_eq!(rt; t.report(), opened(limit, 5));
    for _ in 0..12 {
        match t.report().standing {
            Standing::Running => t.run([5; 3], budget)?,
            _ => refused(rt, &mut t, Refusal::Stopped, |t| t.run([5; 3], budget)),
        }
    }
    refused(rt, &mut t, Refusal::Stopped, |t| t.run([5; 3], 0));
    Ok(t.report())
}

#[test]
fn ends(rt: HostRuntime) -> Result<(), Fail> {
    let possible = Report {
        standing: Standing::Possible,
        round: 2,
        count: 10,
        outer: 4,
        ..opened(100, 5)
    };
    let impossible = Report {
        standing: Standing::Impossible,
        round: 1,
        count: 5,
        outer: 4,
        ..opened(100, 5)
    };
    let possible_lost = Report {
        standing: Standing::Spent,
        round: 1,
        sweep: 4,
        count: 9,
        outer: 4,
        inner: 4,
        ..opened(9, 5)
    };
    let impossible_lost = Report {
        standing: Standing::Spent,
        sweep: 4,
        count: 4,
        inner: 4,
        ..opened(4, 5)
    };
    let ends = [
        (false, possible),
        (
            false,
            Report {
                limit: 10,
                ..possible
            },
        ),
        (false, possible_lost),
        (true, impossible),
        (
            true,
            Report {
                limit: 5,
                ..impossible
            },
        ),
        (true, impossible_lost),
    ];
    for (stuck, end) in ends {
        assert_eq!(rt; ended(&rt, stuck, end.limit, u32::MAX)?, end);
        assert_eq!(rt; ended(&rt, stuck, end.limit, 1)?, end);
    }
    Ok(())
}

// Also the record and the tables of a trial that is turned down are as before, the new ones of a widening too.
fn refused<F: FnOnce(&mut Trial) -> Result<(), Refusal>>(
    rt: &impl Abort,
    t: &mut Trial,
    expected: Refusal,
    call: F,
)
    requires { F.IsAlwaysCallable call }
{
    let report = t.report();
    let before = t.tables;
    assert_eq!(rt; call(t), Err(expected));
    assert!(rt; t.report() == report && t.tables == before);
    assert!(rt; t.longer == Tables::fresh());
}

#[test]
fn turns_down(rt: HostRuntime) -> Result<(), Fail> {
    let openings = [
        ([0, 0, 0], 0, Refusal::Tables),
        ([3, 2, 3], 0, Refusal::Tables),
        ([2, 2, 3], 0, Refusal::Tables),
        ([4097, 4097, 4097], 9, Refusal::Tables),
        ([2, 2, 2], 0, Refusal::Limit),
        ([2, 2, 2], 9, Refusal::Tops),
    ];
    for (lent, limit, expected) in openings {
        let Err(closed) = Trial::open(false, lent, limit) else {
            return Err(Fail::new("opened"));
        };
        assert!(rt; closed.refusal == expected && closed.unchanged);
    }
    let Ok(mut t) = Trial::open(false, [3; 3], 9) else {
        return Err(Fail::new("open is refused"));
    };
    for lent in [[4, 3, 3], [3, 2, 3], [3, 3, 4]] {
        refused(&rt, &mut t, Refusal::Places, |t| t.run(lent, 0));
    }
    refused(&rt, &mut t, Refusal::Places, |t| t.widen([2, 3], [9; 3]));
    refused(&rt, &mut t, Refusal::Places, |t| t.widen([3, 4], [9; 3]));
    refused(&rt, &mut t, Refusal::Room, |t| t.widen([3; 2], [1; 3]));
    // now full
    t.run([3; 3], 9)?;
    refused(&rt, &mut t, Refusal::Places, |t| t.run([3, 3, 2], 0));
    refused(&rt, &mut t, Refusal::Stopped, |t| t.run([3; 3], 0));
    refused(&rt, &mut t, Refusal::Places, |t| t.widen([4, 3], [1; 3]));
    for lent in [[3; 3], [5, 4, 5], [5, 5, 6], [4097; 3]] {
        refused(&rt, &mut t, Refusal::Wider, |t| t.widen([3; 2], lent));
    }
    Ok(())
}

#[test]
fn numbers_refusals(rt: HostRuntime) {
    let numbers = [
        (Refusal::Tables, 12),
        (Refusal::Limit, 13),
        (Refusal::Tops, 14),
        (Refusal::Places, 15),
        (Refusal::Stopped, 16),
        (Refusal::Room, 17),
        (Refusal::Wider, 18),
    ];
    for (refusal, number) in numbers {
        assert_eq!(rt; refusal.number(), number);
    }
}

#[test]
fn numbers_standings(rt: HostRuntime) {
    let standings = [
        Standing::Running,
        Standing::Possible,
        Standing::Impossible,
        Standing::Full,
        Standing::Spent,
    ];
    for (number, standing) in standings.into_iter().enumerate() {
        assert_eq!(rt; standing as usize, number);
    }
}

// A state added to a table of two places that holds 1 and 2: the table, and its fill.
fn added(c: u8) -> ([u8; 2], Option<Fill>) {
    let mut table = [1, 2];
    let fill = Fill {
        held: 2,
        changed: false,
    };
    let fill = add(&Chain { stuck: false }, &mut table, fill, c);
    (table, fill)
}

#[test]
fn adds(rt: HostRuntime) {
    let same = Fill {
        held: 2,
        changed: false,
    };
    assert_eq!(rt; added(2), ([1, 2], Some(same)));
    assert_eq!(rt; added(3), ([1, 2], None));
    let ([first, _], fill) = added(4);
    assert_eq!(rt; first, 4);
    let one = Fill {
        held: 1,
        changed: true,
    };
    assert_eq!(rt; fill, Some(one));
}
