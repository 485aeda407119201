// The files that a folder of sheets has.
ghost use Rattle.std.specs.Prelude.{◌≡◌};
ghost use Rattle.explain.specs.Files.{file_name, form_at, FormsNumbered};

use sheets::Form;

/// The name of the file that has a sheet of the form.
pub fn file_name(form: Form) -> &'static str
    ensures { result.now ≡ file_name form }
{
    match form {
        Form::Board => "board.txt",
        Form::Tasks => "tasks.txt",
        Form::Answer => "answer.txt",
    }
}

/// The form of the sheet of a number, if there is one: that of `Place::sheet`.
pub fn form_at(sheet: u32) -> Option<Form>
    ensures form { result ≡ form_at sheet }
    ensures numbers { FormsNumbered }
{
    match sheet {
        1 => Some(Form::Board),
        2 => Some(Form::Tasks),
        3 => Some(Form::Answer),
        _ => None,
    }
}
