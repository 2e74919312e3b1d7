// The words of a table.
ghost use Rattle.std.specs.Prelude.{◌≡◌};
ghost use Rattle.cpl_stocks.specs.Fields.{exchange_name, quantity_name};

use crate::Exchange;
use cpl_fixed::Quantity;

pub(crate) fn quantity_name(quantity: Quantity) -> &'static [u8]
    ensures { result.now ≡ quantity_name quantity }
{
    match quantity {
        Quantity::Heat => b"heat",
        Quantity::Water => b"water",
        Quantity::Salt => b"salt",
    }
}

pub(crate) fn exchange_name(exchange: Exchange) -> &'static [u8]
    ensures { result.now ≡ exchange_name exchange }
{
    match exchange {
        Exchange::AirLand => b"air-land",
        Exchange::AirIce => b"air-ice",
        Exchange::LandIce => b"land-ice",
        Exchange::OceanIce => b"ocean-ice",
        Exchange::IceOcean => b"ice-ocean",
    }
}
