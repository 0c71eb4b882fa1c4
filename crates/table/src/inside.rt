// The bytes of a field. `part` asks that the fields are those that were found in the line.
ghost use Rattle.std.specs.Prelude.{◌≡◌, [], get_or};
ghost use Rattle.table.specs.Cut.{fields_by, Fielded};

use crate::Fields;

impl<'a> Fields<'a> {
    // The bytes of a field of the line, counted from 0; none past the last.
    pub fn part(&self, n: usize) -> &'a [u8]
        requires { Fielded self.now }
        ensures { result.now ≡ get_or (fields_by self.now) n [] }
    {
        if self.count <= n {
            return &[];
        }
        &self.line[self.begins[n]..self.begins[n + 1] - 1]
    }
}
