//! Threads that share one struct, which has stores and structures of two domains.
ghost use Rattle.std.specs.Prelude.{◌≡◌};

use crate::sessions::scoped;
use crate::stores::calls::{release, writer};
use crate::wants::want;
use epoch_lend_pointers::{Domain, LentCells, Made, PostSet, Posts, Store, pinned};
use epoch_lists::{LendingQueue, OwnedNode};
use epoch_map::{GrowingMap, LentEntry};
use std::alloc::Global;
use std::marker::Brand;
use std::process::Abort;
use std::sync::Wait;
use std::thread;
use std::thread::Threads;

/// How many threads set prices, and as many send orders.
const PAIRS: u64 = 2;

/// How many prices or orders each of them has.
const EACH: u64 = 100;

/// How many cells each store may have.
const CELLS: u32 = 2_048;

type Price = LentEntry<u64, u64>;

type Order = OwnedNode<u64>;

/// What the threads share. The types of the nodes are parameters, without which the checker doesn't find it `Sync`.
#[derive(Drop)]
struct Shop<'p, 's, 'q, 't, J: PostSet, K: PostSet, N, M> {
    for_prices: &'p Store<'s, J, N>,
    prices: GrowingMap<'p, 's, J, N>,
    for_orders: &'q Store<'t, K, M>,
    orders: LendingQueue<'q, 't, K, M>,
}

/// Sets the prices of this thread's goods.
fn set_prices<J: PostSet, K: PostSet>(
    rt: &impl Abort,
    alloc: Global,
    shop: &Shop<'_, '_, '_, '_, J, K, Price, Order>,
    thread: u64,
) {
    let mut session = scoped(rt, shop.for_prices.domain());
    let mut writer = writer(rt, alloc, shop.for_prices);
    for turn in 0..EACH {
        let price = Price::new(thread.wrapping_mul(EACH).wrapping_add(turn), turn);
        let is_put = pinned(&mut session, |guard| {
            shop.prices.put(&mut writer, guard, price).is_ok()
        });
        want(rt, "there is a cell for each price", is_put, true);
    }
    release(rt, writer);
}

/// Sends the orders of one thread.
fn send_orders<J: PostSet, K: PostSet>(
    rt: &impl Abort,
    alloc: Global,
    shop: &Shop<'_, '_, '_, '_, J, K, Price, Order>,
) {
    let mut session = scoped(rt, shop.for_orders.domain());
    let mut writer = writer(rt, alloc, shop.for_orders);
    for order in 1..=EACH {
        let is_sent = pinned(&mut session, |guard| {
            shop.orders
                .push_owned(&mut writer, guard, order, 1_000)
                .is_ok()
        });
        want(rt, "there is a cell for each order", is_sent, true);
    }
    release(rt, writer);
}

fn run_at_once<J, K, R: Abort + Threads + Wait + Sync>(
    rt: &R,
    alloc: Global,
    shop: &Shop<'_, '_, '_, '_, J, K, Price, Order>,
)
where
    J: PostSet + Send + Sync,
    K: PostSet + Send + Sync,
{
    thread::scope(thread::scope_env(), rt, |scope| {
        for pair in 0..PAIRS {
            let _ = scope.spawn(move || set_prices(rt, alloc, shop, pair));
            let _ = scope.spawn(move || send_orders(rt, alloc, shop));
        }
    });
}

/// The sum of all orders that were sent.
fn sum_of_orders<J: PostSet, K: PostSet>(
    rt: &impl Abort,
    alloc: Global,
    shop: &Shop<'_, '_, '_, '_, J, K, Price, Order>,
) -> u64 {
    let mut session = scoped(rt, shop.for_orders.domain());
    let mut writer = writer(rt, alloc, shop.for_orders);
    let mut sum: u64 = 0;
    for _ in 0..PAIRS * EACH {
        let order = pinned(&mut session, |guard| {
            shop.orders.pop_owned(&mut writer, guard, 1)
        });
        if let Ok(Some(order)) = order {
            sum = sum.wrapping_add(order);
        }
    }
    release(rt, writer);
    sum
}

/// Opens the shop with stores of these domains, runs the threads, and counts what they left.
fn open<J, K, R: Abort + Threads + Wait + Sync>(
    rt: &R,
    alloc: Global,
    for_prices: &Store<'_, J, Price>,
    for_orders: &Store<'_, K, Order>,
)
where
    J: PostSet + Send + Sync,
    K: PostSet + Send + Sync,
{
    let prices = GrowingMap::new(alloc, for_prices).expect(rt, "memory for the buckets");
    let mut first = writer(rt, alloc, for_orders);
    let made = LendingQueue::new(&mut first, OwnedNode::empty());
    release(rt, first);
    let Ok(orders) = made else {
        panic!(rt; "there is no cell for the first node");
    };
    let shop = Shop {
        for_prices,
        prices,
        for_orders,
        orders,
    };
    run_at_once(rt, alloc, &shop);
    want(rt, "each price is there", shop.prices.len(), 200);
    let sum = sum_of_orders(rt, alloc, &shop);
    want(rt, "each order came", sum, PAIRS * 5050);
}

/// Opens the shop in two domains of these posts.
fn open_in<J, K, R: Abort + Threads + Wait + Sync>(rt: &R, alloc: Global, first: Made, second: Made)
where
    J: PostSet + Send + Sync,
    K: PostSet + Send + Sync,
    requires first { first.posts.items ≡ J.posts }
    requires second { second.posts.items ≡ K.posts }
{
    let posts = "memory for posts";
    let first = Domain::new(Posts::<J>::of(alloc, first).expect(rt, posts));
    let second = Domain::new(Posts::<K>::of(alloc, second).expect(rt, posts));
    let mut for_prices = LentCells::new(alloc, CELLS, &first).expect(rt, "memory for cells");
    let mut for_orders = LentCells::new(alloc, CELLS, &second).expect(rt, "memory for cells");
    let prices = Store::new(alloc, &first, &mut for_prices).expect(rt, "memory for a store");
    let orders = Store::new(alloc, &second, &mut for_orders).expect(rt, "memory for a store");
    open(rt, alloc, &prices, &orders);
    let _ = (prices.end(), orders.end());
}

#[test]
fn threads_share_a_struct_of_two_domains(rt: HostRuntime) {
    let alloc = rt.alloc();
    let first = Made::new(alloc, 64).expect(&rt, "memory for posts");
    let second = Made::new(alloc, 64).expect(&rt, "memory for posts");
    open_in::<Brand, Brand, HostRuntime>(&rt, alloc, first, second);
}
