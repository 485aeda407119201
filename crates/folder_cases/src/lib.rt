// Tests of reading sheets: on folders that the tests make, with sheets of the longest length and beyond, of other line ends,
// and what is no file of text; and on readers that fail on the way.
#![tactic(auto)]

#[cfg(test)]
mod tests {
    use folder::files::read_folder;
    use folder::print::print_folder;
    use folder::stream::Fallible;
    use explain::Source;
    use folder::text::{Text, Texts};
    use folder::texts::read_sheets;
    use std::alloc::Global;
    use std::fs::{File, Files};
    use std::io::{ErrorKind, Read, Write};
    use std::os::unix::fs::symlink;
    use std::process::{Abort, ExitCode};
    use std::test::Fail;
    use std::{fs, io, str};

    const BOARD: &[u8] = b"processors overhead test\n1 0 da\n";

    const TASKS: &[u8] = b"task wcet period deadline\na 1 2 2\n";

    const ANSWER: &[u8] = b"task estimate\na 1\n";

    // A file with these bytes.
    fn write_file(rt: &HostRuntime, path: &str, bytes: &[u8]) -> io::Result<()> {
        File::create(rt, path)?.write_all(bytes)
    }

    // Removes a folder, if there is one.
    fn remove_folder<R: Files + AllocGlobal>(rt: &R, folder: &str) -> io::Result<()> {
        if fs::exists(rt, folder)? {
            fs::remove_dir_all(rt, folder)?;
        }
        Ok(())
    }

    // A new folder with a board, and tasks where they are given.
    fn make_folder(rt: &HostRuntime, folder: &str, tasks: Option<&[u8]>) -> io::Result<()> {
        remove_folder(rt, folder)?;
        fs::create_dir(rt, folder)?;
        write_file(rt, &format!(in rt.alloc(); "{folder}/board.txt")?, BOARD)?;
        match tasks {
            Some(tasks) => write_file(rt, &format!(in rt.alloc(); "{folder}/tasks.txt")?, tasks),
            None => Ok(()),
        }
    }

    // Of the sheets in this folder just this is printed, and this is the status. The folder goes then.
    fn prints<R: Abort + Files + AllocGlobal>(
        rt: &R,
        folder: &str,
        expected: &str,
        expected_status: ExitCode,
    ) -> Result<(), Fail> {
        let mut printed = Vec::new(rt.alloc());
        let status = print_folder(rt, folder, &mut printed)?;
        assert_eq!(rt; str::from_utf8(&printed), Ok(expected), "{folder}");
        assert_eq!(rt; status, expected_status, "{folder}");
        remove_folder(rt, folder)?;
        Ok(())
    }

    // Of the sheets in this folder this fault is printed.
    fn prints_fault<R: Abort + Files + AllocGlobal>(
        rt: &R,
        folder: &str,
        fault: &str,
    ) -> Result<(), Fail> {
        let expected = format!(in rt.alloc(); "fault sheet line field\n{fault}\n")?;
        prints(rt, folder, &expected, ExitCode::FAILURE)
    }

    #[test]
    fn each_file_is_a_sheet(rt: HostRuntime) -> Result<(), Fail> {
        make_folder(&rt, "whole", Some(TASKS))?;
        write_file(&rt, "whole/answer.txt", ANSWER)?;
        let expected = "verdict ranges steps\n\
             found 0 1\n\
             level task estimate\n\
             1 a 1\n\
             answer task bound\n\
             passes - 0\n";
        prints(&rt, "whole", expected, ExitCode::SUCCESS)
    }

    #[test]
    fn a_missing_file_is_empty(rt: HostRuntime) -> Result<(), Fail> {
        prints_fault(&rt, "nowhere", "1 1 0 0")?;
        make_folder(&rt, "no-tasks", None)?;
        write_file(&rt, "no-tasks/answer.txt", ANSWER)?;
        prints_fault(&rt, "no-tasks", "1 2 0 0")?;
        make_folder(&rt, "no-answer", Some(TASKS))?;
        prints_fault(&rt, "no-answer", "1 3 0 0")
    }

    #[test]
    fn what_is_no_file_is_empty(rt: HostRuntime) -> Result<(), Fail> {
        make_folder(&rt, "a-folder", None)?;
        fs::create_dir(&rt, "a-folder/tasks.txt")?;
        prints_fault(&rt, "a-folder", "1 2 0 0")?;
        make_folder(&rt, "a-loop", None)?;
        symlink(&rt, "tasks.txt", "a-loop/tasks.txt")?;
        prints_fault(&rt, "a-loop", "1 2 0 0")
    }

    #[test]
    fn an_endless_file_is_too_long(rt: HostRuntime) -> Result<(), Fail> {
        make_folder(&rt, "endless", Some(TASKS))?;
        symlink(&rt, "/dev/zero", "endless/answer.txt")?;
        prints_fault(&rt, "endless", "1 3 0 0")
    }

    #[test]
    fn line_ends_are_line_feeds(rt: HostRuntime) -> Result<(), Fail> {
        // With a carriage return behind it the name of the last column is no column's.
        let tasks = b"task wcet period deadline\r\na 1 2 2\r\n";
        make_folder(&rt, "returns", Some(tasks))?;
        write_file(&rt, "returns/answer.txt", ANSWER)?;
        prints_fault(&rt, "returns", "2 2 1 0")?;
        make_folder(&rt, "no-feed", Some(TASKS))?;
        write_file(&rt, "no-feed/answer.txt", b"task estimate\na 1")?;
        prints_fault(&rt, "no-feed", "1 3 0 0")
    }

    // Lines of an answer, as many bytes of them as are asked for: 14 of the first line, and 4 or 5 of each other.
    fn write_answer(rt: &HostRuntime, path: &str, fives: usize, fours: usize) -> io::Result<()> {
        let mut file = File::create(rt, path)?;
        file.write_all(b"task estimate\n")?;
        for _ in 0..fives {
            file.write_all(b"aa 1\n")?;
        }
        for _ in 0..fours {
            file.write_all(b"a 1\n")?;
        }
        Ok(())
    }

    #[test]
    fn a_text_has_4096_bytes_at_most(rt: HostRuntime) -> Result<(), Fail> {
        // 14 + 5 * 2 + 4 * 1018 = 4096, and the 33rd value line is the first that is too much.
        make_folder(&rt, "longest", Some(TASKS))?;
        write_answer(&rt, "longest/answer.txt", 2, 1018)?;
        prints_fault(&rt, "longest", "5 3 34 0")?;
        // 14 + 5 * 3 + 4 * 1017 = 4097
        make_folder(&rt, "too-long", Some(TASKS))?;
        write_answer(&rt, "too-long/answer.txt", 3, 1017)?;
        prints_fault(&rt, "too-long", "1 3 0 0")?;
        // The first 4,096 bytes are the text above.
        make_folder(&rt, "goes-on", Some(TASKS))?;
        write_answer(&rt, "goes-on/answer.txt", 2, 2018)?;
        prints_fault(&rt, "goes-on", "1 3 0 0")
    }

    #[test]
    fn a_full_output_is_an_error(rt: HostRuntime) -> Result<(), Fail> {
        make_folder(&rt, "full", Some(TASKS))?;
        let mut room = [0; 8];
        let mut rest: &mut [u8] = &mut room;
        assert!(&rt; print_folder(&rt, "full", &mut rest).is_err());
        remove_folder(&rt, "full")?;
        Ok(())
    }

    // The text has these bytes, and is from there.
    fn is_text<R: Abort>(rt: &R, text: &Text, bytes: &[u8], source: Source) {
        assert_eq!(rt; text.bytes.as_slice(), bytes);
        assert_eq!(rt; text.source, source);
    }

    #[test]
    fn a_text_tells_its_source(rt: HostRuntime) -> Result<(), Fail> {
        make_folder(&rt, "sources", Some(b""))?;
        fs::create_dir(&rt, "sources/answer.txt")?;
        let texts = read_folder(&rt, "sources")?;
        is_text(&rt, &texts.board, BOARD, Source::File);
        is_text(&rt, &texts.tasks, b"", Source::File);
        is_text(&rt, &texts.answer, b"", Source::NotRegular);
        remove_folder(&rt, "sources")?;
        // A file is no folder, and a link to itself leads nowhere.
        make_folder(&rt, "others", None)?;
        symlink(&rt, "tasks.txt", "others/tasks.txt")?;
        let texts = read_folder(&rt, "others")?;
        is_text(&rt, &texts.tasks, b"", Source::Failed);
        is_text(&rt, &texts.answer, b"", Source::Missing);
        let texts = read_folder(&rt, "others/board.txt")?;
        is_text(&rt, &texts.board, b"", Source::Failed);
        remove_folder(&rt, "others")?;
        Ok(())
    }

    // What one read does.
    #[derive(Clone, Copy)]
    enum Turn {
        Gives(&'static [u8]),
        Fails(ErrorKind),
    }

    // A reader of which each read takes the next turn. After the last there are no more bytes.
    #[derive(Drop)]
    struct Script<'a> {
        turns: &'a [Turn],
        next: usize,
    }

    impl Read for Script<'_> {
        fn read(&mut self, room: &mut [u8]) -> io::Result<usize> {
            if self.next >= self.turns.len() {
                return Ok(0);
            }
            let turn = self.turns[self.next];
            self.next += 1;
            match turn {
                Turn::Gives(mut bytes) => bytes.read(room),
                Turn::Fails(kind) => Err(io::Error::from(kind)),
            }
        }
    }

    // A file that is open, of these turns.
    fn scripted(turns: &[Turn]) -> Fallible<Script<'_>> {
        Fallible(Script { turns, next: 0 })
    }

    // The texts, where reading each file takes these turns.
    fn read_turns(alloc: Global, turns: &[Turn]) -> io::Result<Texts> {
        read_sheets(alloc, ".", |_path: &str| Ok(Some(scripted(turns))))
    }

    #[test]
    fn a_file_that_fails_on_the_way_is_empty(rt: HostRuntime) -> Result<(), Fail> {
        let kinds = [
            (ErrorKind::Other, Source::Failed),
            (ErrorKind::TimedOut, Source::Failed),
            (ErrorKind::PermissionDenied, Source::Forbidden),
        ];
        for (kind, source) in kinds {
            let texts = read_turns(rt.alloc(), &[Turn::Gives(BOARD), Turn::Fails(kind)])?;
            is_text(&rt, &texts.board, b"", source);
            is_text(&rt, &texts.tasks, b"", source);
            is_text(&rt, &texts.answer, b"", source);
        }
        Ok(())
    }

    #[test]
    fn a_text_comes_in_pieces(rt: HostRuntime) -> Result<(), Fail> {
        // An interrupted read is no failure.
        let turns = [
            Turn::Fails(ErrorKind::Interrupted),
            Turn::Gives(b"task estim"),
            Turn::Fails(ErrorKind::Interrupted),
            Turn::Fails(ErrorKind::Interrupted),
            Turn::Gives(b"ate\n"),
            Turn::Gives(b"a 1\n"),
        ];
        let texts = read_turns(rt.alloc(), &turns)?;
        is_text(&rt, &texts.answer, ANSWER, Source::File);
        Ok(())
    }

    // The error of reading the texts.
    fn error_kind(texts: io::Result<Texts>) -> Option<ErrorKind> {
        match texts {
            Ok(_) => None,
            Err(error) => Some(error.kind()),
        }
    }

    #[test]
    fn want_of_memory_is_an_error(rt: HostRuntime) -> Result<(), Fail> {
        let memory = ErrorKind::OutOfMemory;
        let turns = [Turn::Gives(BOARD), Turn::Fails(memory)];
        assert_eq!(rt; error_kind(read_turns(rt.alloc(), &turns)), Some(memory));
        let opener = |path: &str| {
            if path == "f/answer.txt" {
                return Err(io::Error::from(memory));
            }
            Ok(Some(scripted(&[])))
        };
        assert_eq!(rt;
            error_kind(read_sheets(rt.alloc(), "f", opener)),
            Some(memory)
        );
        Ok(())
    }

    #[test]
    fn a_file_that_cannot_be_opened_is_empty(rt: HostRuntime) -> Result<(), Fail> {
        let opener = |path: &str| match path {
            "f/board.txt" => Err(io::Error::from(ErrorKind::PermissionDenied)),
            "f/tasks.txt" => Err(io::Error::from(ErrorKind::NotFound)),
            "f/answer.txt" => Ok(None),
            _ => Ok(Some(scripted(&[]))),
        };
        let texts = read_sheets(rt.alloc(), "f", opener)?;
        is_text(&rt, &texts.board, b"", Source::Forbidden);
        is_text(&rt, &texts.tasks, b"", Source::Missing);
        is_text(&rt, &texts.answer, b"", Source::NotRegular);
        Ok(())
    }
}
