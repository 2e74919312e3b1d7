// Tables of stocks.
use cpl_fixed::Quantity;
use cpl_namelist::Civil;
use cpl_stocks::{StockRow, stocks_text};
use std::test::Fail;

// A row of the 1st of March 2001. The numbers are air, land, ice, ocean, to_ice, to_ocean, entered, left, total.
fn row(step: u32, seconds: i64, quantity: Quantity, numbers: [i64; 9]) -> StockRow {
    StockRow {
        step,
        date: Civil {
            year: 2001,
            month: 3,
            day: 1,
        },
        seconds,
        quantity,
        air: numbers[0],
        land: numbers[1],
        ice: numbers[2],
        ocean: numbers[3],
        to_ice: numbers[4],
        to_ocean: numbers[5],
        entered: numbers[6],
        left: numbers[7],
        total: numbers[8],
    }
}

// A world of one column and its first hour, worked by hand.
fn column() -> [StockRow; 6] {
    let start_heat = [44_800, 10_920, 0, 570_400, 142_600, 71_300, 0, 0, 840_020];
    let start_water = [0, 0, 0, 400, 100, 50, 0, 0, 550];
    let start_salt = [0, 0, 0, 40, 10, 5, 0, 0, 55];
    let heat = [
        57_500, 10_979, 0, 481_275, 160_425, 129_938, 140, 43, 840_117,
    ];
    let water = [2, 0, 0, 338, 112, 98, 0, 0, 550];
    let salt = [0, 0, 0, 34, 11, 10, 0, 0, 55];
    [
        row(0, 0, Quantity::Heat, start_heat),
        row(0, 0, Quantity::Water, start_water),
        row(0, 0, Quantity::Salt, start_salt),
        row(1, 3_600, Quantity::Heat, heat),
        row(1, 3_600, Quantity::Water, water),
        row(1, 3_600, Quantity::Salt, salt),
    ]
}

const COLUMNS: &str =
    "step,date,seconds,quantity,air,land,ice,ocean,to_ice,to_ocean,entered,left,total\n";

#[test]
fn stocks_of_one_column(rt: HostRuntime) -> Result<(), Fail> {
    let alloc = rt.alloc();
    let lines = [
        COLUMNS,
        "0,2001-03-01,0,heat,44800,10920,0,570400,142600,71300,0,0,840020\n",
        "0,2001-03-01,0,water,0,0,0,400,100,50,0,0,550\n",
        "0,2001-03-01,0,salt,0,0,0,40,10,5,0,0,55\n",
        "1,2001-03-01,3600,heat,57500,10979,0,481275,160425,129938,140,43,840117\n",
        "1,2001-03-01,3600,water,2,0,0,338,112,98,0,0,550\n",
        "1,2001-03-01,3600,salt,0,0,0,34,11,10,0,0,55\n",
    ];
    let rows = column();

    // No row, a run of no step, a run of one.
    for count in [0usize, 3, 6] {
        let text = stocks_text(alloc, &rows[..count])?;
        let mut wanted = String::new(alloc);
        for line in &lines[..count + 1] {
            wanted.push_str(*line)?;
        }
        assert_eq!(rt; text.as_slice(), wanted.as_bytes(), "at {count}");
    }
    Ok(())
}

#[test]
fn the_greatest_stocks(rt: HostRuntime) -> Result<(), Fail> {
    let rows = [
        StockRow {
            date: Civil {
                year: 9999,
                month: 12,
                day: 31,
            },
            ..row(u32::MAX, i64::MAX, Quantity::Heat, [i64::MIN; 9])
        },
        StockRow {
            date: Civil {
                year: 1,
                month: 10,
                day: 9,
            },
            ..row(0, i64::MIN, Quantity::Salt, [-1, 0, 10, 0, -10, 0, 0, 0, 7])
        },
    ];
    let text = stocks_text(rt.alloc(), &rows)?;
    let mut wanted = String::from_str(rt.alloc(), COLUMNS)?;
    wanted.push_str("4294967295,9999-12-31,9223372036854775807,heat")?;
    for _ in 0..9 {
        wanted.push_str(",-9223372036854775808")?;
    }
    wanted.push_str("\n0,0001-10-09,-9223372036854775808,salt,-1,0,10,0,-10,0,0,0,7\n")?;
    assert_eq!(rt; text.as_slice(), wanted.as_bytes());
    Ok(())
}
