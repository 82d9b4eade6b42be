// What is read from the bytes of a record as a value of its kind.
ghost use Rattle.std.specs.Prelude.{◌≡◌, length};
ghost use Rattle.record.specs.Grid.{decode};
ghost use Rattle.record.specs.declared.row.Row.{Row};

// A row of one kind, or an input. Its fields are those of the row that the bytes hold, whatever bytes they are.
pub trait Typed: Sized {
    ghost of_row: { Row → Self };

    fn from_bytes(part: &[u8]) -> Self
        requires { length part.now ≡ 64 }
        ensures { result ≡ of_row (decode part.now) };
}
