// Calls by number on threads, jobs, and a desk.
ghost use Rattle.std.specs.Prelude.{◌≡◌, ◌≤◌};
ghost use Rattle.abuf_num.specs.declared.limits.TheConstants.{MAX_THREADS};
ghost use Rattle.abuf_share.specs.declared.desk.TheConstants.{MAX_NUMBERS};

use abuf_num::NoMemory;
use abuf_share::{Desk, map_jobs, map_numbered};
use std::alloc::Global;
use std::process::Abort;
use std::test::Fail;
use std::thread::Threads;

/// What is computed of a number.
fn of_number(number: u64) -> u64 {
    number ^ 21845
}

fn by_number<R: Threads + Sync + Abort>(
    rt: &R,
    alloc: Global,
    count: u32,
    threads: u32,
) -> Result<(), Fail>
    requires count { count ≤ MAX_NUMBERS }
    requires threads { (1 ≤ threads) × (threads ≤ MAX_THREADS) }
{
    let found = map_numbered(
        rt,
        alloc,
        count,
        threads,
        &|number| Ok(of_number(u64::from(number))),
    )?;
    assert!(rt;
        found.len() == count as usize,
        "{count} by {threads} threads"
    );
    for (number, value) in found.iter().enumerate() {
        assert!(rt;
            *value == of_number(number as u64),
            "{count} by {threads} threads"
        );
    }
    Ok(())
}

#[test]
fn the_results_of_all_numbers(rt: HostRuntime) -> Result<(), Fail> {
    let alloc = rt.alloc();
    for count in [0, 1, 5, 1000] {
        for threads in [1, 2, 3, 7, 64] {
            by_number(&rt, alloc, count, threads)?;
        }
    }
    Ok(())
}

#[test]
fn no_results_where_one_call_fails(rt: HostRuntime) -> Result<(), Fail> {
    let alloc = rt.alloc();
    for threads in [1, 2, 3, 7, 64] {
        let found = map_numbered(
            &rt,
            alloc,
            1000,
            threads,
            &|number| {
                if number == 700 {
                    Err(NoMemory)
                } else {
                    Ok(number)
                }
            },
        );
        assert!(rt; found.is_err(), "by {threads} threads");
    }
    Ok(())
}

fn by_jobs<R: Threads + Sync + Abort>(rt: &R, alloc: Global, count: u64) -> Result<(), Fail> {
    let jobs: Vec<u64> = (0..count).collect(alloc)?;
    let found = map_jobs(rt, alloc, jobs, &|job| of_number(job))?;
    let expected: Vec<u64> = (0..count).map(|number| of_number(number)).collect(alloc)?;
    assert!(rt; found == expected, "{count} jobs");
    Ok(())
}

#[test]
fn the_results_of_all_jobs(rt: HostRuntime) -> Result<(), Fail> {
    let alloc = rt.alloc();
    for count in [0, 1, 2, 3, 7, 64] {
        by_jobs(&rt, alloc, count)?;
    }
    Ok(())
}

/// A value that may be moved to another thread, and one that may be shared.
fn moved<T: Send>(value: T) -> T
    ensures { result ≡ value }
{
    value
}

fn shared<T: Sync>(_value: &T) {}

#[test]
fn a_desk_of_two_parts_and_one_of_none(rt: HostRuntime) -> Result<(), Fail> {
    let alloc = rt.alloc();
    let (desk, mut a) = Desk::start(alloc, 2)?;
    shared(&desk);
    let mut b = moved(a.split(&desk, 5));
    let first = desk.take(&mut a);
    let second = desk.take(&mut b);
    let third = desk.take(&mut a);
    let fourth = desk.take(&mut b);
    a.join(&desk, b);
    assert!(rt; first == Some(0) && second == Some(1));
    assert!(rt; third.is_none() && fourth.is_none());
    let (empty, mut turn) = Desk::start(alloc, 0)?;
    assert!(rt; empty.take(&mut turn).is_none());
    Ok(())
}
