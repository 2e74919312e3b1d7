// Tables of exchanges.
use cpl_fixed::Quantity;
use cpl_stocks::{Exchange, ExchangeRow, exchanges_text};
use std::test::Fail;

const EXCHANGES: [Exchange; 5] = [
    Exchange::AirLand,
    Exchange::AirIce,
    Exchange::LandIce,
    Exchange::OceanIce,
    Exchange::IceOcean,
];

const QUANTITIES: [Quantity; 3] = [Quantity::Heat, Quantity::Water, Quantity::Salt];

// In flight before, gave, took and in flight after, by exchange and quantity: the first hour of a world of one column,
// worked by hand.
const COLUMN: [[[i64; 4]; 3]; 5] = [
    [[0, 27, 27, 0], [0, 0, 0, 0], [0, 0, 0, 0]],
    [[0, -12_770, -12_770, 0], [0, -2, -2, 0], [0, 0, 0, 0]],
    [[0, 0, 0, 0], [0, 0, 0, 0], [0, 0, 0, 0]],
    [
        [142_600, 160_425, 142_600, 160_425],
        [100, 112, 100, 112],
        [10, 11, 10, 11],
    ],
    [
        [71_300, 129_938, 71_300, 129_938],
        [50, 98, 50, 98],
        [5, 10, 5, 10],
    ],
];

const TEXT: &str = "step,exchange,quantity,before,gave,took,after
1,air-land,heat,0,27,27,0
1,air-land,water,0,0,0,0
1,air-land,salt,0,0,0,0
1,air-ice,heat,0,-12770,-12770,0
1,air-ice,water,0,-2,-2,0
1,air-ice,salt,0,0,0,0
1,land-ice,heat,0,0,0,0
1,land-ice,water,0,0,0,0
1,land-ice,salt,0,0,0,0
1,ocean-ice,heat,142600,160425,142600,160425
1,ocean-ice,water,100,112,100,112
1,ocean-ice,salt,10,11,10,11
1,ice-ocean,heat,71300,129938,71300,129938
1,ice-ocean,water,50,98,50,98
1,ice-ocean,salt,5,10,5,10
";

#[test]
fn exchanges_of_one_column(rt: HostRuntime) -> Result<(), Fail> {
    let alloc = rt.alloc();
    let mut rows = Vec::new(alloc);
    for (exchange, of_exchange) in EXCHANGES.iter().zip(&COLUMN) {
        for (quantity, numbers) in QUANTITIES.iter().zip(of_exchange) {
            rows.push(ExchangeRow {
                step: 1,
                exchange: *exchange,
                quantity: *quantity,
                before: numbers[0],
                gave: i128::from(numbers[1]),
                took: i128::from(numbers[2]),
                after: numbers[3],
            })?;
        }
    }
    let text = exchanges_text(alloc, rows.as_slice())?;
    assert_eq!(rt; text.as_slice(), TEXT.as_bytes());
    Ok(())
}

#[test]
fn no_exchange(rt: HostRuntime) -> Result<(), Fail> {
    let text = exchanges_text(rt.alloc(), &[])?;
    let wanted = b"step,exchange,quantity,before,gave,took,after\n";
    assert_eq!(rt; text.as_slice(), wanted.as_slice());
    Ok(())
}

#[test]
fn the_greatest_exchange(rt: HostRuntime) -> Result<(), Fail> {
    let rows = [ExchangeRow {
        step: 10_000,
        exchange: Exchange::IceOcean,
        quantity: Quantity::Water,
        before: i64::MIN,
        gave: i128::MIN,
        took: i128::MAX,
        after: i64::MAX,
    }];
    let text = exchanges_text(rt.alloc(), &rows)?;
    let wanted = b"step,exchange,quantity,before,gave,took,after
10000,ice-ocean,water,-9223372036854775808,-170141183460469231731687303715884105728,170141183460469231731687303715884105727,9223372036854775807
";
    assert_eq!(rt; text.as_slice(), wanted.as_slice());
    Ok(())
}
