use sp_modulo::{Order, Schedule, are_fitting, least_schedule};
use std::alloc::Global;
use std::process::Abort;

fn number(rt: &impl Abort, word: Option<&str>) -> u32 {
    let word = word.expect(rt, "a word");
    word.parse::<u32>().ok().expect(rt, "a number")
}

fn numbers(rt: &impl Abort, alloc: Global, text: &str) -> Vec<u32> {
    let mut found = Vec::new(alloc);
    for word in text.split_whitespace() {
        found.push(number(rt, Some(word))).ok().expect(rt, "memory");
    }
    found
}

fn orders_from(rt: &impl Abort, alloc: Global, text: &str) -> Vec<Order> {
    let mut orders = Vec::new(alloc);
    for part in text.split(',') {
        let mut words = part.split_whitespace();
        if let Some(first) = words.next() {
            let order = Order {
                first: number(rt, Some(first)),
                second: number(rt, words.next()),
                gap: number(rt, words.next()),
                distance: u64::from(number(rt, words.next())),
            };
            orders.push(order).ok().expect(rt, "memory");
        }
    }
    orders
}

// Interval, latency and times of a schedule, and nothing of none.
fn parts(rt: &impl Abort, alloc: Global, found: &Option<Schedule>) -> Vec<u32> {
    let mut parts = Vec::new(alloc);
    if let Some(s) = found {
        for part in [s.interval, s.latency] {
            parts.push(part).ok().expect(rt, "memory");
        }
        parts
            .extend_from_slice(s.times.as_slice())
            .ok()
            .expect(rt, "memory");
    }
    parts
}

// Latencies; orders, by first, second, gap and distance; and the interval, the latency and the times of the least
// schedule, if there is one, which another program found by trying every interval. The first is a histogram's loop.
const SCHEDULES: &str = "\
2 2 1 1 : 0 1 2 0, 1 2 2 0, 0 3 2 0, 2 3 1 0, 1 3 0 0, 3 1 1 1, 3 3 1 1 = 4 6 0 2 4 5\n\
 : = 1 0\n\
1 : = 1 1 0\n\
1 1 : 0 1 1 0, 1 0 0 0 =\n\
1 1 : 0 1 0 0, 1 0 0 0 = 1 1 0 0\n\
0 0 1 2 0 0 : 5 2 0 2, 5 3 0 1, 2 3 1 0, 1 2 0 0, 0 3 0 0, 1 3 0 3, 3 2 2 1, 0 1 0 0 = 3 3 0 0 0 1 0 0\n\
2 4 1 : 0 1 2 0, 2 1 0 2, 1 2 4 0 = 2 7 0 2 6\n\
2 1 4 : 1 2 1 3, 0 1 0 0, 1 0 1 1, 0 2 2 0, 2 2 1 2 = 1 6 0 0 2\n\
2 2 2 : 0 2 2 0, 0 1 0 0, 0 0 1 2, 1 0 2 0, 0 1 1 1 =\n\
1 2 4 : 2 2 0 2, 2 2 1 2, 1 1 2 1, 0 2 0 2, 2 1 4 0, 2 1 0 1 = 2 6 0 4 0\n\
";

#[test]
fn least_schedules(rt: HostRuntime) {
    for line in SCHEDULES.lines() {
        let (question, want) = line.split_once('=').expect(&rt, "an answer");
        let (latencies, orders) = question.split_once(':').expect(&rt, "orders");
        let latencies = numbers(&rt, rt.alloc(), latencies);
        let orders = orders_from(&rt, rt.alloc(), orders);
        assert!(rt; latencies.len() < 100 && latencies.iter().all(|l| *l <= 4));
        assert!(rt; are_fitting(&latencies, &orders), "at {line}");
        let found = least_schedule(rt.alloc(), &latencies, &orders)
            .ok()
            .expect(&rt, "memory");
        let parts = parts(&rt, rt.alloc(), &found);
        let want = numbers(&rt, rt.alloc(), want);
        assert_eq!(rt; parts.as_slice(), want.as_slice(), "at {line}");
    }
}
