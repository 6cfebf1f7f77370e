//! Kinds, and the words for them in requests, replies, files and tables.
ghost use Rattle.std.specs.Prelude.{◌≡◌};
ghost use Rattle.vocabulary.specs.Kinds.{company_word, company_of, meeting_kind_word, meeting_kind_of, resolution_kind_word, resolution_kind_of, holder_kind_word, holder_kind_of, capacity_word, capacity_of, way_word, way_of, instruction_word, instruction_of};

/// The kind of a company (Companies Act 2006, section 4).
#[derive(Clone, Copy, PartialEq, Eq)]
pub enum Company {
    Private,
    Public,
}

impl Company {
    /// The word for it.
    pub fn word(self) -> &'static str
        ensures { result.now ≡ company_word self }
    {
        match self {
            Company::Private => "private",
            Company::Public => "public",
        }
    }

    /// The one that a word stands for, or none where no such word is listed.
    pub fn of_word(word: &str) -> Option<Company>
        ensures { result ≡ company_of word.now }
    {
        match word {
            "private" => Some(Company::Private),
            "public" => Some(Company::Public),
            _ => None,
        }
    }
}

/// The kind of a general meeting: the annual one of section 336, or any other.
#[derive(Clone, Copy, PartialEq, Eq)]
pub enum MeetingKind {
    Annual,
    General,
}

impl MeetingKind {
    /// The word for it.
    pub fn word(self) -> &'static str
        ensures { result.now ≡ meeting_kind_word self }
    {
        match self {
            MeetingKind::Annual => "annual",
            MeetingKind::General => "general",
        }
    }

    /// The one that a word stands for, or none where no such word is listed.
    pub fn of_word(word: &str) -> Option<MeetingKind>
        ensures { result ≡ meeting_kind_of word.now }
    {
        match word {
            "annual" => Some(MeetingKind::Annual),
            "general" => Some(MeetingKind::General),
            _ => None,
        }
    }
}

/// The kind of a resolution (sections 282 and 283).
#[derive(Clone, Copy, PartialEq, Eq)]
pub enum ResKind {
    Ordinary,
    Special,
}

impl ResKind {
    /// The word for it.
    pub fn word(self) -> &'static str
        ensures { result.now ≡ resolution_kind_word self }
    {
        match self {
            ResKind::Ordinary => "ordinary",
            ResKind::Special => "special",
        }
    }

    /// The one that a word stands for, or none where no such word is listed.
    pub fn of_word(word: &str) -> Option<ResKind>
        ensures { result ≡ resolution_kind_of word.now }
    {
        match word {
            "ordinary" => Some(ResKind::Ordinary),
            "special" => Some(ResKind::Special),
            _ => None,
        }
    }
}

/// Who holds the shares of a row: a person, a corporation (section 323), or the company itself
/// (section 724).
#[derive(Clone, Copy, PartialEq, Eq)]
pub enum HolderKind {
    Individual,
    Corporation,
    Treasury,
}

impl HolderKind {
    /// The word for it.
    pub fn word(self) -> &'static str
        ensures { result.now ≡ holder_kind_word self }
    {
        match self {
            HolderKind::Individual => "individual",
            HolderKind::Corporation => "corporation",
            HolderKind::Treasury => "treasury",
        }
    }

    /// The one that a word stands for, or none where no such word is listed.
    pub fn of_word(word: &str) -> Option<HolderKind>
        ensures { result ≡ holder_kind_of word.now }
    {
        match word {
            "individual" => Some(HolderKind::Individual),
            "corporation" => Some(HolderKind::Corporation),
            "treasury" => Some(HolderKind::Treasury),
            _ => None,
        }
    }
}

/// In what capacity a vote is cast: as the member (section 284), as a representative of a
/// corporation (section 323), or as a proxy (section 324).
#[derive(Clone, Copy, PartialEq, Eq)]
pub enum Capacity {
    Member,
    Rep,
    Proxy,
}

impl Capacity {
    /// The word for it.
    pub fn word(self) -> &'static str
        ensures { result.now ≡ capacity_word self }
    {
        match self {
            Capacity::Member => "member",
            Capacity::Rep => "rep",
            Capacity::Proxy => "proxy",
        }
    }

    /// The one that a word stands for, or none where no such word is listed.
    pub fn of_word(word: &str) -> Option<Capacity>
        ensures { result ≡ capacity_of word.now }
    {
        match word {
            "member" => Some(Capacity::Member),
            "rep" => Some(Capacity::Rep),
            "proxy" => Some(Capacity::Proxy),
            _ => None,
        }
    }
}

/// How a vote is cast. A vote that is withheld is counted as withheld, and is neither for nor
/// against.
#[derive(Clone, Copy, PartialEq, Eq)]
pub enum Way {
    For,
    Against,
    Withheld,
}

impl Way {
    /// The word for it.
    pub fn word(self) -> &'static str
        ensures { result.now ≡ way_word self }
    {
        match self {
            Way::For => "for",
            Way::Against => "against",
            Way::Withheld => "withheld",
        }
    }

    /// The one that a word stands for, or none where no such word is listed.
    pub fn of_word(word: &str) -> Option<Way>
        ensures { result ≡ way_of word.now }
    {
        match word {
            "for" => Some(Way::For),
            "against" => Some(Way::Against),
            "withheld" => Some(Way::Withheld),
            _ => None,
        }
    }
}

/// What a proxy is instructed to do on a resolution (section 324A).
#[derive(Clone, Copy, PartialEq, Eq)]
pub enum Instr {
    For,
    Against,
    Withheld,
    Free,
}

impl Instr {
    /// The word for it.
    pub fn word(self) -> &'static str
        ensures { result.now ≡ instruction_word self }
    {
        match self {
            Instr::For => "for",
            Instr::Against => "against",
            Instr::Withheld => "withheld",
            Instr::Free => "free",
        }
    }

    /// The one that a word stands for, or none where no such word is listed.
    pub fn of_word(word: &str) -> Option<Instr>
        ensures { result ≡ instruction_of word.now }
    {
        match word {
            "for" => Some(Instr::For),
            "against" => Some(Instr::Against),
            "withheld" => Some(Instr::Withheld),
            "free" => Some(Instr::Free),
            _ => None,
        }
    }
}
