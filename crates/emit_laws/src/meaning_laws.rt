//! What holds of the meaning of the source, whatever the expression, the values or the program.

ghost use Rattle.emit_laws.specs.Fuel.{EndsStay, RunsGoOn};
ghost use Rattle.emit_laws.specs.Binding.{BindsItsNames, BindTheirNames};
ghost use Rattle.emit_laws.specs.Comparing.{OrderTurns, OrderChains, LevelsAlike, EqualByOrder, EqualsItself};
ghost use Rattle.emit_laws.specs.Records.{RecordsHold, UpdatesHold, RecordsRise, UpdatesRise, RecordsAlike};
ghost use Rattle.emit_laws.specs.Comparing.{EqualTurns, EqualsAlike};

/// With more fuel an expression ends as it did, unless it had run out of fuel; and a program does what it did, and maybe
/// goes on where it was cut off by its fuel.
pub fn fuel_laws()
    ensures ends_stay { EndsStay }
    ensures runs_go_on { RunsGoOn }
{}

/// A pattern that matches binds its names, each once for each place where it stands, from left to right, and no others;
/// so do several patterns in turn.
pub fn binding_laws()
    ensures one { BindsItsNames }
    ensures all { BindTheirNames }
{}

/// Where values have an order, it is that of a line, and `==` tells the same as it does.
pub fn order_laws()
    ensures turns { OrderTurns }
    ensures chains { OrderChains }
    ensures levels_alike { LevelsAlike }
    ensures equal_by_order { EqualByOrder }
{}

/// A value is equal to itself, unless a function is reached in it. Turned around, `==` gives the same. Equal values look
/// the same wherever values are compared.
pub fn equality_laws()
    ensures equals_itself { EqualsItself }
    ensures turns { EqualTurns }
    ensures alike { EqualsAlike }
{}

/// A record has the fields that it was made of, and no others. They stand in the order of their names, so that records
/// with the same fields are the same, in whatever order these were written. An update changes its field alone, and keeps
/// the order.
pub fn record_laws()
    ensures records_hold { RecordsHold }
    ensures updates_hold { UpdatesHold }
    ensures records_rise { RecordsRise }
    ensures updates_rise { UpdatesRise }
    ensures records_alike { RecordsAlike }
{}
