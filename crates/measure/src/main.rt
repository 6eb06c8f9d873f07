// Settles or searches a chart, or asks a register, again and again, to be timed from outside:
// measure WHAT LINES STEP ORDER TIMES. WHAT is `search` or `request`, or else the chart is settled. The line to an
// account comes from the account STEP before it, or from account 0, the owner, so that the longest chain has one line
// more than 510 / STEP; a second line to an account comes from one further back. ORDER is `backward` where the lines
// stand the other way round. A request is on a register whose 4,096 cells are all in use, by four drafts with grants
// between the same accounts; LINES and ORDER do not matter for it.
#![tactic(auto)]

use anyhow::Context;
use charts::{Mark, Marks, search};
use model::{Decision, DraftRecord, GrantRecord};
use rights::Register;
use rulings::House;
use settlement::settle;
use std::alloc::{AllocError, Global};
use std::env;
use terms::{CELLS, DRAFT_CELLS, Kind};

#[derive(Clone, Copy)]
enum What {
    Search,
    Request,
    Settle,
}

impl From<&str> for What {
    fn from(word: &str) -> What {
        match word {
            "search" => What::Search,
            "request" => What::Request,
            _ => What::Settle,
        }
    }
}

#[derive(Clone, Copy)]
enum Order {
    Forward,
    Backward,
}

impl From<&str> for Order {
    fn from(word: &str) -> Order {
        match word {
            "backward" => Order::Backward,
            _ => Order::Forward,
        }
    }
}

#[derive(Clone, Copy)]
struct Plan {
    what: What,
    lines: u16,
    step: u16,
    order: Order,
    times: u32,
}

fn main(rt: HostRuntime) -> anyhow::Result<()> {
    let plan = read_plan(&rt)?;
    match plan.what {
        What::Search => search_often(&rt, &plan),
        What::Settle => settle_often(&rt, &plan),
        What::Request => ask_often(&rt, &plan),
    }
}

// Each of these three stays a function of its own, so that the times of one do not change with the code of another.
#[inline(never)]
fn search_often(rt: &HostRuntime, plan: &Plan) -> anyhow::Result<()> {
    let marks = draw(rt.alloc(), plan)?;
    let chart = Marks { marks: &marks };
    let found = last_of(plan.times, || search(&chart, 0).contains(511)).unwrap_or(false);
    println!(rt; "account 511 is reached: {found}")?;
    Ok(())
}

#[inline(never)]
fn settle_often(rt: &HostRuntime, plan: &Plan) -> anyhow::Result<()> {
    let marks = draw(rt.alloc(), plan)?;
    let chart = Marks { marks: &marks };
    match last_of(plan.times, || settle(&chart, 0, &House, 3).pick(511)).flatten() {
        Some(at) => println!(rt; "account 511 is picked by line {at}")?,
        None => println!(rt; "account 511 has no line")?,
    }
    Ok(())
}

// Asks for account 511 on the last of four full drafts.
#[inline(never)]
fn ask_often(rt: &HostRuntime, plan: &Plan) -> anyhow::Result<()> {
    let heap = rt.alloc();
    let mut places = vec![in heap; DraftRecord::default(); 4]?;
    let mut cells = vec![in heap; GrantRecord::default(); CELLS]?;
    let mut register = Register::build(&mut places, &mut cells);
    for draft in 0..4 {
        fill(&mut register, draft, plan.step);
    }
    let told = last_of(plan.times, || register.request(&House, 3, 0, 511));
    match told {
        Some(Ok((Decision::Permitted, by))) => {
            println!(rt; "account 511 is permitted by {}", by.unwrap_or(0))?
        }
        Some(Ok((Decision::Denied, by))) => {
            println!(rt; "account 511 is denied by {}", by.unwrap_or(0))?
        }
        _ => println!(rt; "account 511 is undecided")?,
    }
    Ok(())
}

// What the last of so many calls gives.
fn last_of<T: Drop, F: FnMut() -> T>(times: u32, mut call: F) -> Option<T>
    requires { F.IsAlwaysCallable call }
{
    let mut last = None;
    for _ in 0..times {
        last = Some(call());
    }
    last
}

// Opens a draft and grants on it until its 1,024 cells are in use: one grant to each account, then a second, and a
// third. What is refused, as a second grant by the owner to an account, is passed over.
fn fill(register: &mut Register, draft: u16, step: u16) {
    let _ = register.open(&House, draft, 0, 3, DRAFT_CELLS);
    for i in 0..8192 {
        let (from, to) = ends(i, step);
        let _ = register.grant(draft, 0, from, to, 2);
    }
}

fn read_plan(rt: &HostRuntime) -> anyhow::Result<Plan> {
    let mut args = env::args(rt)?.skip(1);
    let what = args.next().context("not told what to measure")?;
    let lines = args.next().context("no number of lines")?;
    let step = args.next().context("no step")?;
    let order = args.next().context("no order")?;
    let times = args.next().context("no number of times")?;
    Ok(Plan {
        what: What::from(what.as_str()),
        lines: lines.parse::<u16>()?,
        step: step.parse::<u16>()?,
        order: Order::from(order.as_str()),
        times: times.parse::<u32>()?,
    })
}

// Between which accounts a line leads: one to each account, then a second to each, from one further back.
fn ends(line: u16, step: u16) -> (u16, u16) {
    let to = 1 + line % 511;
    let back = step.saturating_add(line / 511);
    (to.saturating_sub(back), to)
}

fn draw(heap: Global, plan: &Plan) -> Result<Vec<Mark>, AllocError> {
    let mut marks = Vec::new(heap);
    for serial in 0..plan.lines {
        let (from, to) = ends(serial, plan.step);
        marks.push(Mark {
            from,
            to,
            kind: Kind::Delegatable,
            serial,
        })?;
    }
    if let Order::Backward = plan.order {
        marks.reverse();
    }
    Ok(marks)
}
