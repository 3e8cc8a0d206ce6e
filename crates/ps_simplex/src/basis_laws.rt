//! The laws of the table of a basis.

ghost use Rattle.ps_simplex.specs.BasisLaws.{HomesHaveATable, PivotsKeepTables, NewColumnsKeepTables};
ghost use Rattle.ps_simplex.specs.BasisLaws.{BasesHaveOneTable, BasesHaveOneSolution};
ghost use Rattle.ps_simplex.specs.BasisLaws.{OnlyTheTableMatters, MultipliersPriceColumns};

/// The identity on the homes is their table.
pub fn home_table()
    ensures stands { HomesHaveATable }
{}

/// A pivot keeps the table that of its basis, with its rows the sums over the home columns and
/// its basic columns units.
pub fn pivot_keeps()
    ensures stands { PivotsKeepTables }
{}

/// One more column keeps it: the column of a world, from its entries and the home columns.
pub fn wider_table()
    ensures stands { NewColumnsKeepTables }
{}

/// A basis has one table.
pub fn one_table()
    ensures same { BasesHaveOneTable }
{}

/// A basis has one set of values, which are those of its table.
pub fn one_solution()
    ensures same { BasesHaveOneSolution }
{}

/// What a table stands for and carries is told by its own rows and columns and their costs.
pub fn same_tables()
    ensures same { OnlyTheTableMatters }
{}

/// The right side is the column of the first home, so what is carried of it is that home's
/// multiplier; and what is carried of a column is its price by the multipliers.
pub fn prices()
    ensures priced { MultipliersPriceColumns }
{}
