ghost use Rattle.walks.specs.Table.{Rows};

// The worked designs come out as they should.
pub fn table_stands()
    ensures { Rows }
{}
