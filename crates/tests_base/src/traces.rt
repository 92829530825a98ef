//! Two spots in every order that matters, a trace that goes on, and two threads that order nodes at once.
use crate::{
    close_both, draft_and_look, link, newest_flag, open_two, order_all, order_many, order_one,
    resume_two, tell,
};
use onll_trace::{Ended, Link, Trace};
use onll_words::OpRow;
use std::test::Fail;
use std::thread;

const ROW: OpRow = OpRow {
    w: [1, 0, 5, 0, 0, 0, 0],
};

#[test]
fn an_exchange_is_lost(rt: HostRuntime) -> Result<(), Fail> {
    let Some((trace, mut first, mut second)) = open_two(rt.alloc(), 1) else {
        panic!(rt; "no memory")
    };
    let early = draft_and_look(&trace, &mut first, ROW);
    let late = draft_and_look(&trace, &mut second, ROW);
    let linked = link(&trace, &mut second, late);
    assert!(rt; linked == Link::Linked { place: 1 });
    let moved = link(&trace, &mut first, early);
    assert!(rt;
        moved
            == Link::Moved {
                loaded: 0,
                found: 1
            }
    );
    let Some(ended) = close_both(rt.alloc(), trace, first, second) else {
        panic!(rt; "no memory")
    };
    assert!(rt; ended.len() == 1);
    let end = ended[0];
    assert!(rt; end.node.thread == 1 && end.node.number == 1 && end.node.row == ROW);
    assert!(rt; !end.flag);
    Ok(())
}

#[test]
fn a_note_is_learnt(rt: HostRuntime) -> Result<(), Fail> {
    let Some((trace, mut first, mut second)) = open_two(rt.alloc(), 1) else {
        panic!(rt; "no memory")
    };
    order_many(&trace, &mut second, 1);
    tell(&trace, &mut second, &mut first);
    order_many(&trace, &mut first, 1);
    tell(&trace, &mut first, &mut second);
    let newest = newest_flag(&trace, &mut second);
    assert!(rt; newest == Some((2, true)));
    let Some(ended) = close_both(rt.alloc(), trace, first, second) else {
        panic!(rt; "no memory")
    };
    assert!(rt; ended.len() == 2);
    assert!(rt; ended[0].node.thread == 1 && ended[0].flag);
    assert!(rt; ended[1].node.thread == 0 && ended[1].flag);
    Ok(())
}

#[test]
fn a_trace_goes_on(rt: HostRuntime) -> Result<(), Fail> {
    let Some((trace, mut first, mut second)) = resume_two(rt.alloc(), ROW) else {
        panic!(rt; "no memory")
    };
    let place = order_one(&trace, &mut second, ROW);
    assert!(rt; place == Some(4));
    assert!(rt; second.number() == 2 && second.ordered() == 1);
    let newest = newest_flag(&trace, &mut first);
    assert!(rt; newest == Some((4, true)));
    let Some(ended) = close_both(rt.alloc(), trace, first, second) else {
        panic!(rt; "no memory")
    };
    assert!(rt; ended.len() == 1);
    assert!(rt; ended[0].node.thread == 1 && ended[0].node.number == 2 && ended[0].flag);
    Ok(())
}

// All numbers of the thread's nodes rise, each row is its node's, and all flags are set.
fn is_in_order(ended: &[Ended], thread: u64) -> bool {
    let mut last = 0;
    for end in ended {
        if end.node.thread == thread {
            let number = end.node.number;
            if number <= last || !end.flag {
                return false;
            }
            if end.node.row.w[1] != thread || end.node.row.w[2] != number - 1 {
                return false;
            }
            last = number;
        }
    }
    last == 1000
}

fn count(ended: &[Ended], thread: u64) -> usize {
    ended.iter().filter(|end| end.node.thread == thread).count()
}

#[test]
fn two_threads_order_at_once(rt: HostRuntime) -> Result<(), Fail> {
    let Some((trace, first, second)) = open_two(rt.alloc(), 1000) else {
        panic!(rt; "no memory")
    };
    let (first, second) = thread::join(
        &rt,
        || order_all(&trace, first, 1000),
        || order_all(&trace, second, 1000),
    );
    assert!(rt; first.ordered() == 1000 && second.ordered() == 1000);
    let Some(ended) = close_both(rt.alloc(), trace, first, second) else {
        panic!(rt; "no memory")
    };
    assert!(rt; ended.len() == 2000);
    for thread in 0..2 {
        assert!(rt; count(&ended, thread) == 1000 && is_in_order(&ended, thread));
    }
    Ok(())
}

#[test]
fn the_largest_trace(rt: HostRuntime) -> Result<(), Fail> {
    let Ok((trace, spots)) = Trace::create(rt.alloc(), 16, 4096) else {
        panic!(rt; "no memory")
    };
    assert!(rt; trace.threads() == 16 && trace.nodes() == 4096 && trace.base() == 0);
    assert!(rt; spots.len() == 16);
    Ok(())
}
